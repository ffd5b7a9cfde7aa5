//! The first values of globals (4.5.4).
ghost use Rattle.std.specs.Prelude.{◌≡◌, map, IfOk};
ghost use Rattle.wsyntax.specs.Modules.{global_shape};
ghost use Rattle.wsyntax.specs.Execution.Start.{first_value};
ghost use Rattle.soundness.specs.Slots.{bits};

use crate::constant::constant;
use std::alloc::{AllocError, Global as Alloc};
use wnum::conversions::wrap;
use wsyntax::{Global, ValType};

/// The first value of a global without its tag; 0 of a global of a float type, which no instance has.
fn first_word(global: &Global<'_>) -> u64
    ensures { result ≡ bits (first_value (global_shape global.now)) }
{
    let number = constant(&global.init);
    match global.global_type.val_type {
        ValType::I32 => u64::from(wrap(number)),
        ValType::I64 => number,
        ValType::F32 | ValType::F64 => 0,
    }
}

/// The first values of the globals in order. Where there is none, no memory is asked for.
pub(crate) fn first_words(alloc: Alloc, globals: &[Global<'_>]) -> Result<Vec<u64>, AllocError>
    ensures { IfOk result (λ v. v.items ≡ map (λ g. bits (first_value (global_shape g))) globals.now) }
{
    let mut words = Vec::new(alloc);
    for global in globals {
        words.push(first_word(global))?;
    }
    Ok(words)
}
