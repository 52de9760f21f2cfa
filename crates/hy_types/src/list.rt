// Lists of types of a table.
ghost use Rattle.std.specs.Prelude.{◌≡◌};

use crate::kinds::TyId;
use std::alloc::AllocError;
use std::hash::{Hash, Hasher};
use std::marker::Model;

/// Types of a table by their numbers, which contracts see as their list.
#[derive(Debug, Drop)]
pub struct TyList {
    items: Vec<TyId>,
}

impl Model for TyList {
    ghost use Rattle.std.specs.Prelude.{List};
    ghost use Rattle.hy_types.specs.declared.kinds.TyId.{TyId};

    ghost Value = { List TyId };

    ghost view = { λ list. list.items.items };
}

impl PartialEq for TyList {
    ghost use Rattle.hy_types.specs.Lists.{same_ids, same_ids_per};

    ghost eq = { same_ids };

    ghost laws = { same_ids_per };

    fn eq(&self, other: &TyList) -> bool {
        self.items.as_slice() == other.items.as_slice()
    }
}

impl Eq for TyList {
    ghost use Rattle.hy_types.specs.Lists.{same_ids_equiv};

    ghost laws = { same_ids_equiv };
}

impl Hash for TyList {
    ghost use Rattle.hy_types.specs.Lists.{ids_input, ids_alike};

    ghost hash_input = { ids_input };

    ghost respects_eq = { ids_alike.fed };

    fn hash<H: Hasher>(&self, state: &mut H) {
        self.items.hash(state);
    }
}

impl Clone for TyList {
    ghost use Rattle.std.specs.Prelude.{◌≡◌};

    ghost is_clone = { λ list copy. copy ≡ list };

    fn clone(&self) -> Result<TyList, AllocError> {
        let items = Vec::from_slice(*self.items.allocator(), self.items.as_slice())?;
        Ok(TyList { items })
    }
}

impl TyList {
    /// The list of these types.
    pub fn from_vec(items: Vec<TyId>) -> TyList
        ensures { result ≡ items.items }
    {
        TyList { items }
    }

    /// Its types.
    pub fn as_slice(&self) -> &[TyId]
        ensures { result.now ≡ self.now }
    {
        self.items.as_slice()
    }
}
