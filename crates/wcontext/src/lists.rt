//! Lists of value types, by where a module writes them, and prefixes of such lists.
ghost use Rattle.std.specs.Prelude.{◌≡◌, [], ◌∷◌, true};

use wsyntax::ValType;

/// A list of value types, by the position where a module writes it.
#[derive(Clone, Copy)]
pub enum TypeList {
    /// No type.
    Nothing,
    /// One type.
    One(ValType),
    /// The parameters of the function type of that index.
    Params(u32),
    /// The results of the function type of that index.
    Results(u32),
}

/// The two lists of a function type (2.3.3), by their positions.
#[derive(Clone, Copy)]
pub struct ListPair {
    pub params: TypeList,
    pub results: TypeList,
}

/// The first `count` types of a list.
#[derive(Clone, Copy)]
pub struct TypePrefix {
    pub list: TypeList,
    pub count: u32,
}

impl TypeList {
    /// Whether both are the same position, and so the same list. The lists at two positions may be the same too.
    #[inline]
    pub fn is_at(self, other: TypeList) -> bool
        ensures { result ≡ true → self ≡ other }
    {
        match (self, other) {
            (TypeList::Params(y), TypeList::Params(z)) => y == z,
            (TypeList::Results(y), TypeList::Results(z)) => y == z,
            _ => false,
        }
    }
}

static NONE: [ValType; 0] = [];

static ONE_I32: [ValType; 1] = [ValType::I32];

static ONE_I64: [ValType; 1] = [ValType::I64];

static ONE_F32: [ValType; 1] = [ValType::F32];

static ONE_F64: [ValType; 1] = [ValType::F64];

/// The list of no type.
#[inline]
pub(crate) fn no_types() -> &'static [ValType]
    ensures { result.now ≡ [] }
{
    &NONE
}

/// The list of this type alone.
#[inline]
pub(crate) fn one_type(t: ValType) -> &'static [ValType]
    ensures { result.now ≡ t ∷ [] }
{
    match t {
        ValType::I32 => &ONE_I32,
        ValType::I64 => &ONE_I64,
        ValType::F32 => &ONE_F32,
        ValType::F64 => &ONE_F64,
    }
}
