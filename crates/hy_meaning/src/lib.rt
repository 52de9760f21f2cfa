//! What a source means: the copying meaning, as definitions. Programmers may read their text as if every value were
//! copied; the compiled code is proved to do the same. `docs/MEANING.md` tells it in words.
#![tactic(auto)]

ghost use Rattle.hy_meaning.specs.Rows.{Rows};

/// Worked examples, computed by the definitions.
pub fn rows()
    ensures { Rows }
{}
