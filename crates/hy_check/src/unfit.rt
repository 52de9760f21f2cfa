// Expressions that have other types than are wanted.
ghost use Rattle.std.specs.Prelude.{◌≡◌, [], false, IfSome, flat_map};
ghost use Rattle.hy_tree.specs.Denotes.{expr_of};
ghost use Rattle.hy_tree.specs.Tree as T;
ghost use Rattle.hy_types.specs.Types.{HasId};
ghost use Rattle.hy_signatures.specs.WantedShown.{wanted_shown, type_shown, IsWanted};
ghost use Rattle.hy_check.specs.Known.{Learns};
ghost use Rattle.hy_check.specs.KnownShown.{IsRight, known_of};
ghost use Rattle.hy_check.specs.Refusals as refusals;
ghost use Rattle.hy_check.specs.Typing.{Around, valued};
ghost use Rattle.hy_check.specs.ValuesShown.{perhaps_shown, IsKnown, HaveValues, exprs_in};

use crate::checker::Checker;
use crate::value::{Part, Value, span_shown, type_in};
use hy_base::Rule;
use hy_signatures::wanted::Wanted;
use hy_tree::Expr;
use hy_types::TyId;

impl Checker<'_> {
    /// Meets an expression that has another type than is wanted.
    pub fn meet_unfit(&mut self, wanted: Wanted, e: &Expr, value: Option<Value>)
        requires right { IsRight self.old }
        requires wanted { IsWanted self.old.types wanted }
        requires value { IsKnown self.old.types value }
        ensures right { IsRight self.new }
        ensures learns { (around : Around) → perhaps_shown self.old.types value ≡ valued around false (expr_of e.now)
            → Learns (known_of self.old) (known_of self.new) (refusals.unfit around (wanted_shown self.old.types wanted) (expr_of e.now)) [] }
        ensures table { self.new.types ≡ self.old.types }
    {
        let Some(v) = value else {
            return;
        };
        let fits = self.types().fits(wanted, v.id);
        self.meet(!fits, Rule::T1, span_shown(e, value));
    }

    /// Meets an expression that has another type than another one, where that has a type.
    pub fn meet_unlike(&mut self, like: Option<TyId>, e: &Expr, value: Option<Value>)
        requires right { IsRight self.old }
        requires like { IfSome like (λ id. HasId self.old.types id) }
        requires value { IsKnown self.old.types value }
        ensures right { IsRight self.new }
        ensures learns { (around : Around) → perhaps_shown self.old.types value ≡ valued around false (expr_of e.now)
            → Learns (known_of self.old) (known_of self.new) (refusals.unlike around (type_shown self.old.types like) (expr_of e.now)) [] }
        ensures table { self.new.types ≡ self.old.types }
    {
        match like {
            Some(id) => self.meet_unfit(Wanted::Exactly(id), e, value),
            None => {}
        }
    }

    /// Meets the parts that have other types than are wanted.
    pub fn meet_each_unfit(&mut self, wanted: Wanted, parts: &[Part])
        requires right { IsRight self.old }
        requires wanted { IsWanted self.old.types wanted }
        requires parts { (around : Around) × HaveValues self.old.types around parts.now }
        ensures right { IsRight self.new }
        ensures learns { (around : Around) → HaveValues self.old.types around parts.now
            → Learns (known_of self.old) (known_of self.new) (flat_map (refusals.unfit around (wanted_shown self.old.types wanted)) (exprs_in parts.now)) [] }
        ensures table { self.new.types ≡ self.old.types }
    {
        for part in parts {
            self.meet_unfit(wanted, part.e, part.value);
        }
    }

    /// Meets the parts that have other types than another expression, where that has a type.
    pub fn meet_each_unlike(&mut self, like: Option<TyId>, parts: &[Part])
        requires right { IsRight self.old }
        requires like { IfSome like (λ id. HasId self.old.types id) }
        requires parts { (around : Around) × HaveValues self.old.types around parts.now }
        ensures right { IsRight self.new }
        ensures learns { (around : Around) → HaveValues self.old.types around parts.now
            → Learns (known_of self.old) (known_of self.new) (flat_map (refusals.unlike around (type_shown self.old.types like)) (exprs_in parts.now)) [] }
        ensures table { self.new.types ≡ self.old.types }
    {
        match like {
            Some(id) => self.meet_each_unfit(Wanted::Exactly(id), parts),
            None => {}
        }
    }

    /// Meets the parts that have other types than the first one, where that has a type.
    pub fn meet_later_unlike(&mut self, parts: &[Part])
        requires right { IsRight self.old }
        requires parts { (around : Around) × HaveValues self.old.types around parts.now }
        ensures right { IsRight self.new }
        ensures learns { (around : Around) → HaveValues self.old.types around parts.now
            → Learns (known_of self.old) (known_of self.new) (refusals.unfit_elements around (T.exprs (exprs_in parts.now))) [] }
        ensures table { self.new.types ≡ self.old.types }
    {
        if let Some((first, more)) = parts.split_first() {
            self.meet_each_unlike(type_in(first.value), more);
        }
    }
}
