// The types of a source.
ghost use Rattle.std.specs.Prelude.{◌≡◌, ℕ, [], IfOk};
ghost use Rattle.hy_types.specs.Types as Y;
ghost use Rattle.hy_types.specs.Types.{HasId, HasIds, AllBelow, Extends, PlainType, mentioned, type_of, type_of_row};
ghost use Rattle.hy_types.specs.declared.kinds.TyId.{TyId};
ghost use Rattle.hy_signatures.specs.Numbered.{IsNumber};
ghost use Rattle.hy_signatures.specs.PlainTypes.{unit};

use hy_base::NoMemory;
use hy_types::{Ty, TyId, TyList, TyTable};
use std::alloc::Global;
use std::marker::Model;

/// The types that operators and predeclared calls want and give, by their numbers.
#[derive(Clone, Copy)]
pub struct Basics {
    pub int: TyId,
    pub truth: TyId,
    pub unit: TyId,
}

/// The types of a source, each once and named by a number. `Int`, `Bool` and `()` are always there.
#[derive(Drop)]
pub struct Types {
    table: TyTable,
    basics: Basics,
}

impl Model for Types {
    ghost use Rattle.hy_types.specs.Types.{Table};
    ghost use Rattle.hy_signatures.specs.Basics.{AreBasics};

    ghost Value = { Table };

    ghost view = { λ types. types.table };

    ghost invariant = { λ types. AreBasics types.table types.basics };
}

/// The number of a type in a table.
fn number_in(table: &mut TyTable, ty: Ty) -> Result<TyId, NoMemory>
    requires { HasIds table.old (mentioned ty) }
    ensures number { IfOk result (λ id. IsNumber table.new (type_of_row table.old ty) id) }
    ensures stays { Extends table.old table.new }
{
    table.intern(ty)
}

/// The number of `()` in a table.
fn number_unit(alloc: Global, table: &mut TyTable) -> Result<TyId, NoMemory>
    ensures number { IfOk result (λ id. IsNumber table.new unit id) }
    ensures stays { Extends table.old table.new }
{
    number_in(table, Ty::Tuple(TyList::from_vec(Vec::new(alloc))))
}

impl Types {
    /// The types that are always there.
    pub fn new(alloc: Global) -> Result<Types, NoMemory>
        ensures { IfOk result (λ types. types.products ≡ []) }
    {
        let mut table = TyTable::new(alloc);
        let int = number_in(&mut table, Ty::Int)?;
        let truth = number_in(&mut table, Ty::Bool)?;
        let unit = number_unit(alloc, &mut table)?;
        let basics = Basics { int, truth, unit };
        Ok(Types { table, basics })
    }

    /// The number of a type, whose parts are types of the table.
    pub fn number(&mut self, ty: Ty) -> Result<TyId, NoMemory>
        requires { HasIds self.old (mentioned ty) }
        ensures number { IfOk result (λ id. IsNumber self.new (type_of_row self.old ty) id) }
        ensures stays { Extends self.old self.new }
    {
        number_in(&mut self.table, ty)
    }

    /// The type of a number.
    pub fn get(&self, id: TyId) -> &Ty
        requires { HasId self.now id }
        ensures equal { type_of self.now id ≡ type_of_row self.now result.now }
        ensures before { AllBelow id.at (mentioned result.now) }
        ensures once { (other : TyId) → HasId self.now other → type_of self.now other ≡ type_of self.now id → other ≡ id }
    {
        self.table.get(id)
    }

    /// The number of `Int`.
    pub fn int(&self) -> TyId
        ensures { IsNumber self.now Y.Int result }
    {
        self.basics.int
    }

    /// The number of `Bool`.
    pub fn truth(&self) -> TyId
        ensures { IsNumber self.now Y.Bool result }
    {
        self.basics.truth
    }

    /// The number of `()`.
    pub fn unit(&self) -> TyId
        ensures { IsNumber self.now unit result }
    {
        self.basics.unit
    }
}
