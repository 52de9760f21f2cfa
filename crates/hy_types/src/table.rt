// Tables of types.
ghost use Rattle.std.specs.Bool.{Decides};
ghost use Rattle.std.specs.Map.{lookup};
ghost use Rattle.std.specs.Prelude.{◌≡◌, ◌<◌, ◌↔◌, ◌⊎◌, ◌++◌, ◌∷◌, [], ℕ, List, Some, None, IsSome};
ghost use Rattle.std.specs.Prelude.{IsNone, IfOk, IfSome, OnOk, OnErr, length, take, slice_get};
ghost use Rattle.hy_types.specs.Types.{Table, AllBelow, HasId, HasIds, row_at, declared, mentioned, type_of, type_of_row, Extends};
ghost use Rattle.hy_types.specs.Words.{AreDeclared, HasWords, HasNoWords, TakeTogether, parts_at};
ghost use Rattle.hy_types.specs.declared.kinds.TyId.{TyId};

use crate::kinds::{Ty, TyId};
use crate::list::TyList;
use crate::sizes::{Size, settle, size_of, total};
use hy_base::NoMemory;
use indexmap::{IndexMap, IndexSet};
use std::alloc::Global;
use std::marker::Model;

/// The types of a program, each once and numbered by the order of first use, with the parts of its declared products.
#[derive(Drop)]
pub struct TyTable {
    types: IndexSet<Ty>,
    sizes: Vec<Size>,
    products: IndexMap<u32, TyList>,
    alloc: Global,
}

impl Model for TyTable {
    ghost use Rattle.hy_types.specs.Types.{Table};

    ghost Value = { Table };

    ghost use Rattle.hy_types.specs.Kept.{IsKept};

    ghost view = { λ table. record { types = table.types.keys; products = table.products.entries } };

    ghost invariant = { λ table. IsKept (record { types = table.types.keys; products = table.products.entries }) table.sizes.items };
}

impl TyTable {
    /// A table without types and products. It keeps the allocator for its later calls.
    pub fn new(alloc: Global) -> TyTable
        ensures types { result.types ≡ [] }
        ensures products { result.products ≡ [] }
    {
        TyTable {
            types: IndexSet::new(alloc),
            sizes: Vec::new(alloc),
            products: IndexMap::new(alloc),
            alloc,
        }
    }

    /// The number of a type, which is put last where it was not there. A table has room for 4,294,967,295 types.
    pub fn intern(&mut self, ty: Ty) -> Result<TyId, NoMemory>
        requires { HasIds self.old (mentioned ty) }
        ensures row { IfOk result (λ id. row_at self.new id ≡ Some ty) }
        ensures once { IfOk result (λ id. (other : TyId) → row_at self.new other ≡ Some ty → other ≡ id) }
        ensures equal { IfOk result (λ id. (other : TyId) → HasId self.new other → (type_of self.new other ≡ type_of_row self.old ty) ↔ (other ≡ id)) }
        ensures first { IfOk result (λ id. HasId self.old id ⊎ ((id.at ≡ length self.old.types) × (self.new.types ≡ self.old.types ++ ty ∷ []))) }
        ensures there { IfOk result (λ id. HasId self.old id → self.new ≡ self.old) }
        ensures stays { Extends self.old self.new }
        ensures refused { OnErr result (self.new ≡ self.old) }
    {
        if self.types.len() >= u32::MAX as usize {
            return Err(NoMemory);
        }
        self.sizes.reserve(1)?;
        let size = size_of(self.sizes.as_slice(), &self.products, &ty);
        let (place, added) = self.types.insert_full(ty)?;
        if added {
            self.sizes.push(size).unwrap();
        }
        Ok(TyId { at: place as u32 })
    }

    /// Keeps the types of a product's fields, in order.
    pub fn declare(&mut self, product: u32, parts: TyList) -> Result<(), NoMemory>
        requires new { declared self.old product ≡ None }
        requires known { HasIds self.old parts }
        ensures declared { OnOk result (self.new ≡ record self.old { products = self.old.products ++ (product, parts) ∷ [] }) }
        ensures refused { OnErr result (self.new ≡ self.old) }
    {
        self.products.insert(product, parts)?;
        settle(
            self.sizes.as_mut_slice(),
            &self.products,
            self.types.as_slice(),
        );
        Ok(())
    }

    /// The types of a product's fields, in order.
    pub fn parts(&self, product: u32) -> &TyList
        requires { IsSome (declared self.now product) }
        ensures parts { declared self.now product ≡ Some result.now }
        ensures known { HasIds self.now result.now }
    {
        self.products.get(&product).unwrap()
    }

    /// The type of a number.
    pub fn get(&self, id: TyId) -> &Ty
        requires { HasId self.now id }
        ensures row { row_at self.now id ≡ Some result.now }
        ensures equal { type_of self.now id ≡ type_of_row self.now result.now }
        ensures before { AllBelow id.at (mentioned result.now) }
        ensures once { (other : TyId) → HasId self.now other → type_of self.now other ≡ type_of self.now id → other ≡ id }
    {
        &self.types.as_slice()[id.at as usize]
    }

    /// The words that a value of the type takes, at most 4,096; none where it holds a parameter outside arrays, is endless or
    /// takes more.
    pub fn words(&self, id: TyId) -> Option<u32>
        requires known { HasId self.now id }
        requires declared { AreDeclared self.now id }
        ensures some { IfSome result (λ words. HasWords self.now id words) }
        ensures none { IsNone result ↔ HasNoWords self.now id }
    {
        match self.sizes[id.at as usize] {
            Size::Words(words) => Some(words),
            Size::Pending | Size::Parameter | Size::Large => None,
        }
    }

    /// The parts of a type outside arrays: those of a tuple, or of a product that was declared.
    pub fn parts_of(&self, id: TyId) -> &[TyId]
        requires known { HasId self.now id }
        ensures parts { result.now ≡ parts_at self.now id }
        ensures known { HasIds self.now result.now }
    {
        match self.get(id) {
            Ty::Tuple(parts) => parts.as_slice(),
            Ty::Product(declaration) => match self.products.get(declaration) {
                Some(parts) => parts.as_slice(),
                None => &[],
            },
            Ty::Int | Ty::Sized(_) | Ty::Bool | Ty::Array(_) | Ty::Param(_) => &[],
        }
    }

    /// The words before a part of a type: those of the parts before it together.
    pub fn offset(&self, id: TyId, part: u32) -> u32
        requires known { HasId self.now id }
        requires words { (words : ℕ) × HasWords self.now id words }
        requires there { part < length (parts_at self.now id) }
        ensures { TakeTogether self.now (take part (parts_at self.now id)) result }
    {
        let parts = self.parts_of(id);
        match total(self.sizes.as_slice(), &parts[..part as usize]) {
            Size::Words(words) => words,
            Size::Pending | Size::Parameter | Size::Large => unreachable!(),
        }
    }

    /// An equal table.
    pub fn copy(&self) -> Result<TyTable, NoMemory>
        ensures { IfOk result (λ table. table ≡ self.now) }
    {
        let types = self.types.clone()?;
        let sizes = Vec::from_slice(self.alloc, self.sizes.as_slice())?;
        let products = self.products.clone()?;
        Ok(TyTable {
            types,
            sizes,
            products,
            alloc: self.alloc,
        })
    }

    /// Whether the product was declared.
    pub fn is_declared(&self, product: u32) -> bool
        ensures { Decides result (IsSome (declared self.now product)) }
    {
        self.products.contains_key(&product)
    }

    // Its types, by their numbers.
    pub(crate) fn rows(&self) -> &[Ty]
        ensures { result.now ≡ self.now.types }
    {
        self.types.as_slice()
    }

    // Where the table keeps its types.
    pub(crate) fn allocator(&self) -> Global {
        self.alloc
    }
}
