//! Where a body stands in its module.
ghost use Rattle.std.specs.Prelude.{◌≡◌, IfSome, Some};
ghost use Rattle.std.specs.List.{between};
ghost use Rattle.explain_bytes.specs.declared.shell.items.Items.TheVariants.{Bodies};
ghost use Rattle.explain_bytes.specs.Shells.{IsBodyAt, after_items};

use crate::item_offsets::section_of;
use crate::sections::CODE;
use crate::shell::primitives::sized_at;
use explanation::{Span, Wanted};
use wnum::front_u32;

/// The bytes after that count of bodies.
fn after_bodies(bytes: &[u8], count: usize) -> Option<&[u8]>
    ensures { IfSome result (λ rest. after_items Bodies count bytes.now ≡ Some rest.now) }
{
    let mut rest = bytes;
    for passed in 0..count {
        let (_body, after) = sized_at(rest, Wanted::BodySize).ok()?;
        rest = after;
    }
    Some(rest)
}

/// Where the body at that position of the section of bodies stands.
fn span_at(bytes: &[u8], position: usize) -> Option<Span>
    ensures { IfSome result (IsBodyAt bytes.now position) }
{
    let (contents, others) = section_of(bytes, CODE)?;
    let (_count, first) = front_u32(contents)?;
    let item = after_bodies(first, position)?;
    let (body, after) = sized_at(item, Wanted::BodySize).ok()?;
    let end = bytes.len().saturating_sub(others.len());
    let to = end.saturating_sub(after.len());
    let from = to.saturating_sub(body.len());
    Some(Span { from, to })
}

/// Where the body stands in the module, whose position among the bodies that is; `None` where other bytes stand there.
pub fn body_span(bytes: &[u8], position: usize, body: &[u8]) -> Option<Span>
    ensures place { IfSome result (IsBodyAt bytes.now position) }
    ensures bytes { IfSome result (λ s. between s.from s.to bytes.now ≡ body.now) }
{
    let span = span_at(bytes, position)?;
    let found = bytes.get(span.from..span.to)?;
    if found == body { Some(span) } else { None }
}
