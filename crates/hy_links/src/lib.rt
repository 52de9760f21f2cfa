//! Lists whose members are linked by index: each knows its two neighbours, so one goes out wherever it stands with no
//! walk. Here are the links, and what a chain of them is; `hy_frames` and `hy_access` keep such lists. `docs/MEMORY.md`
//! has the picture.
#![tactic(auto)]

ghost use Rattle.std.specs.Prelude.{◌≡◌};

/// The two neighbours of a member of a list, as indices of their slots; none where it is the first or the last.
#[derive(Clone, Copy, Debug, PartialEq, Eq)]
pub struct Links {
    /// The one that was put in before this one.
    pub before: Option<u32>,
    /// The one that was put in after this one.
    pub after: Option<u32>,
}

impl Links {
    /// The links of a member that is put in after this one, the newest until now.
    pub fn newest(before: Option<u32>) -> Links
        ensures before { result.before ≡ before }
        ensures after { result.after ≡ None }
    {
        Links {
            before,
            after: None,
        }
    }
}
