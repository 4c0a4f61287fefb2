// The sections of a program's parts, one after the other.

ghost use Rattle.std.specs.Prelude.{◌≡◌, ◌<◌, ◌≤◌, ◌^◌, ◌++◌, map, length, IfOk};
ghost use Rattle.mw_recheck.specs.Sections.{FitsSection};
ghost use Rattle.mw_recheck.specs.Texts.{section_text, IsCertificateText};
ghost use Rattle.mw_infer.specs.Typings.{facts_of};
ghost use Rattle.mw_made.specs.Making.{section_of};
ghost use Rattle.mw_cert.specs.Nodes.{AreShort, AllAreShort, facts_at_part};

use crate::node::put_node;
use mw_infer::Typed;
use mw_section::{LineWriter, put_head, put_section};
use std::alloc::{AllocError, Global};

/// The certificate that has a section for each of so many parts, which are all that are typed: what is known of their
/// nodes, as it is written. The error is want of memory.
pub fn certificate(alloc: Global, typed: &Typed, count: usize) -> Result<Vec<u8>, AllocError>
    requires count { length typed.now.parts ≡ count }
    requires few { count ≤ 2 ^ 32 }
    requires short { AllAreShort (facts_of typed.now) }
    ensures exact { IfOk result
        (λ bytes. IsCertificateText bytes.items (map section_of (facts_of typed.now))) }
{
    let mut text = Vec::new(alloc);
    put_head(&mut text)?;
    for part in 0..count {
        put_part(alloc, &mut text, typed, part as u32)?;
    }
    Ok(text)
}

/// Puts the section of a part behind a text.
fn put_part(alloc: Global, text: &mut Vec<u8>, typed: &Typed, part: u32) -> Result<(), AllocError>
    requires inside { part < length typed.now.parts }
    requires short { AreShort (facts_at_part typed.now part) }
    ensures text { IfOk result (λ _. text.new.items
        ≡ text.old.items ++ section_text (section_of (facts_at_part typed.now part))) }
    ensures fits { IfOk result (λ _. FitsSection (section_of (facts_at_part typed.now part))) }
{
    let mut writer = LineWriter::new(alloc);
    let mut nodes = Vec::new(alloc);
    for at in 0..typed.nodes(part) {
        let node = typed.node(part, at);
        let line = put_node(&mut writer, &node)?;
        nodes.push(line)?;
    }
    let lines = writer.finish();
    put_section(text, lines.as_slice(), nodes.as_slice())
}
