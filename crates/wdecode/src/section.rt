//! Sections by their ids (5.5.2).
ghost use Rattle.std.specs.Prelude.{◌≡◌, ℕ, List, Option, map};
ghost use Rattle.wdecode.specs.Gives.{Gives};
ghost use Rattle.wdecode.specs.Held.{section_shape};
ghost use Rattle.wsyntax.specs.Binary.Production.{whole_at};
ghost use Rattle.wsyntax.specs.Binary.Values.{vector_at as vector_of};
ghost use Rattle.wsyntax.specs.Binary.Sections.{contents, section};
ghost use Rattle.wsyntax.specs.Binary.Shell.{section_id};

use crate::elements::filled_elements;
use crate::fault::Fault;
use crate::types::filled_types;
use crate::values::{Item, blob_at, name_at, u32_at, vector_at};
use std::alloc::Global as Alloc;
use wsyntax::{Data, Elements, Export, FuncTypes, Global, Import, Limits, Table};

/// What a section holds.
#[derive(Drop)]
pub enum Section<'a> {
    Custom,
    Types(FuncTypes),
    Imports(Vec<Import<'a>>),
    Functions(Vec<u32>),
    Tables(Vec<Table>),
    Memories(Vec<Limits>),
    Globals(Vec<Global<'a>>),
    Exports(Vec<Export<'a>>),
    Start(u32),
    Elements(Elements<'a>),
    Code(Vec<&'a [u8]>),
    Data(Vec<Data<'a>>),
}

/// The id of the section of data segments (5.5.14).
pub(crate) const DATA_SECTION: u8 = 11;

impl<'a> Section<'a> {
    /// Its id (5.5.2).
    pub(crate) fn id(&self) -> u8
        ensures { result ≡ section_id (section_shape self.now) }
    {
        match self {
            Section::Custom => 0,
            Section::Types(_) => 1,
            Section::Imports(_) => 2,
            Section::Functions(_) => 3,
            Section::Tables(_) => 4,
            Section::Memories(_) => 5,
            Section::Globals(_) => 6,
            Section::Exports(_) => 7,
            Section::Start(_) => 8,
            Section::Elements(_) => 9,
            Section::Code(_) => 10,
            Section::Data(_) => DATA_SECTION,
        }
    }
}

/// A vector that fills bytes.
fn filled<'a, T: Item<'a>>(alloc: Alloc, bytes: &'a [u8]) -> Result<Vec<T>, Fault>
    ensures { Gives (λ v. map T.shape v.items) result (whole_at (vector_of T.at) bytes.now) }
{
    let (items, rest) = vector_at(alloc, bytes)?;
    if rest.is_empty() {
        Ok(items)
    } else {
        Err(Fault::Malformed)
    }
}

/// What fills the section of an id (5.5.3 to 5.5.14).
fn contents_at(alloc: Alloc, id: u8, bytes: &[u8]) -> Result<Section<'_>, Fault>
    ensures { (rest : List ℕ) → Gives (λ x. (section_shape x, rest)) result ((contents id bytes.now).read rest) }
{
    match id {
        0 => {
            let (_name, _rest) = name_at(bytes)?;
            Ok(Section::Custom)
        }
        1 => Ok(Section::Types(filled_types(alloc, bytes)?)),
        2 => Ok(Section::Imports(filled(alloc, bytes)?)),
        3 => Ok(Section::Functions(filled(alloc, bytes)?)),
        4 => Ok(Section::Tables(filled(alloc, bytes)?)),
        5 => Ok(Section::Memories(filled(alloc, bytes)?)),
        6 => Ok(Section::Globals(filled(alloc, bytes)?)),
        7 => Ok(Section::Exports(filled(alloc, bytes)?)),
        8 => {
            let (index, rest) = u32_at(bytes)?;
            if rest.is_empty() {
                Ok(Section::Start(index))
            } else {
                Err(Fault::Malformed)
            }
        }
        9 => Ok(Section::Elements(filled_elements(alloc, bytes)?)),
        10 => Ok(Section::Code(filled(alloc, bytes)?)),
        DATA_SECTION => Ok(Section::Data(filled(alloc, bytes)?)),
        _ => Err(Fault::Malformed),
    }
}

/// A section (5.5.2).
#[tactic(auto, unfolding(wsyntax::specs::Binary::Sections::section))]
pub fn section_at(alloc: Alloc, bytes: &[u8]) -> Result<(Section<'_>, &[u8]), Fault>
    ensures { Gives (λ x. (section_shape x.0, x.1.now)) result (section.read bytes.now) }
{
    let [id, rest @ ..] = bytes else {
        return Err(Fault::Malformed);
    };
    let (front, rest) = blob_at(rest)?;
    match contents_at(alloc, *id, front) {
        Err(fault) => Err(fault),
        Ok(section) => Ok((section, rest)),
    }
}
