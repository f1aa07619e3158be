//! The bytes of a page.

ghost use Rattle.std.specs.Prelude.{◌≡◌, ◌++◌, IfOk, OnOk};
ghost use Rattle.std.specs.List.{flat_map};
ghost use Rattle.page_text.specs.Escapes.{escaped};
ghost use Rattle.page_text.specs.Pages.{field_bytes, form_bytes, form_start, heading_bytes, line_bytes, link_bytes, page_bytes, para_bytes, title_bytes};

use crate::escapes::write_escaped;
use crate::page_line::{PageLine, PageLineList};
use crash_base::{FieldText, OutOfMemory, PageText};
use std::alloc::Global;

/// How many bytes stand around the heading of a page, as its title and as its first line.
const TAG_BYTES: usize = 42;

/// Adds what stands before a text, and the text escaped.
fn write_text(page: &mut Vec<u8>, before: &[u8], text: &[u8]) -> Result<(), OutOfMemory>
    ensures { OnOk result (page.new.items ≡ page.old.items ++ (before.now ++ escaped text.now)) }
{
    page.extend_from_slice(before)?;
    write_escaped(page, text)
}

/// Adds the document type and the title.
#[tactic(auto, unfolding(crate::specs::Pages::title_bytes))]
fn write_title(page: &mut Vec<u8>, heading: &[u8]) -> Result<(), OutOfMemory>
    ensures { OnOk result (page.new.items ≡ page.old.items ++ title_bytes heading.now) }
{
    write_text(page, b"<!doctype html>\n<title>", heading)?;
    Ok(page.extend_from_slice(b"</title>\n")?)
}

#[tactic(auto, unfolding(crate::specs::Pages::heading_bytes))]
fn write_heading(page: &mut Vec<u8>, heading: &[u8]) -> Result<(), OutOfMemory>
    ensures { OnOk result (page.new.items ≡ page.old.items ++ heading_bytes heading.now) }
{
    write_text(page, b"<h1>", heading)?;
    Ok(page.extend_from_slice(b"</h1>\n")?)
}

#[tactic(auto, unfolding(crate::specs::Pages::para_bytes))]
fn write_para(page: &mut Vec<u8>, text: &[u8]) -> Result<(), OutOfMemory>
    ensures { OnOk result (page.new.items ≡ page.old.items ++ para_bytes text.now) }
{
    write_text(page, b"<p>", text)?;
    Ok(page.extend_from_slice(b"</p>\n")?)
}

#[tactic(auto, unfolding(crate::specs::Pages::link_bytes))]
fn write_link(page: &mut Vec<u8>, address: &[u8], text: &[u8]) -> Result<(), OutOfMemory>
    ensures { OnOk result (page.new.items ≡ page.old.items ++ link_bytes address.now text.now) }
{
    write_text(page, b"<p><a href=\"", address)?;
    write_text(page, b"\">", text)?;
    Ok(page.extend_from_slice(b"</a></p>\n")?)
}

#[tactic(auto, unfolding(crate::specs::Pages::field_bytes))]
fn write_field(page: &mut Vec<u8>, name: &[u8]) -> Result<(), OutOfMemory>
    ensures { OnOk result (page.new.items ≡ page.old.items ++ field_bytes name.now) }
{
    write_text(page, b"<label>", name)?;
    write_text(page, b" <input name=\"", name)?;
    Ok(page.extend_from_slice(b"\"></label>\n")?)
}

fn write_fields(page: &mut Vec<u8>, names: &[FieldText]) -> Result<(), OutOfMemory>
    ensures { OnOk result (page.new.items ≡ page.old.items ++ flat_map field_bytes names.now) }
{
    for name in names {
        write_field(page, name.as_slice())?;
    }
    Ok(())
}

#[tactic(auto, unfolding(crate::specs::Pages::form_start))]
fn write_form_start(page: &mut Vec<u8>, address: &[u8], token: &[u8]) -> Result<(), OutOfMemory>
    ensures { OnOk result (page.new.items ≡ page.old.items ++ form_start address.now token.now) }
{
    write_text(page, b"<form method=\"post\" action=\"", address)?;
    write_text(
        page,
        b"\">\n<input type=\"hidden\" name=\"token\" value=\"",
        token,
    )?;
    Ok(page.extend_from_slice(b"\">\n")?)
}

#[tactic(auto, unfolding(crate::specs::Pages::form_bytes))]
fn write_form(
    page: &mut Vec<u8>,
    address: &[u8],
    token: &[u8],
    fields: &[FieldText],
) -> Result<(), OutOfMemory>
    ensures { OnOk result (page.new.items
        ≡ page.old.items ++ form_bytes address.now token.now fields.now) }
{
    write_form_start(page, address, token)?;
    write_fields(page, fields)?;
    Ok(page.extend_from_slice(b"<button>Send</button>\n</form>\n")?)
}

fn write_line(page: &mut Vec<u8>, line: &PageLine) -> Result<(), OutOfMemory>
    ensures { OnOk result (page.new.items ≡ page.old.items ++ line_bytes line.now) }
{
    match line {
        PageLine::Para { text } => write_para(page, text.as_slice())?,
        PageLine::Link { address, text } => write_link(page, address.as_slice(), text.as_slice())?,
        PageLine::Form {
            address,
            token,
            fields,
        } => write_form(
            page,
            address.as_slice(),
            token.as_slice(),
            fields.as_slice(),
        )?,
    }
    Ok(())
}

fn write_lines(page: &mut Vec<u8>, lines: &[PageLine]) -> Result<(), OutOfMemory>
    ensures { OnOk result (page.new.items ≡ page.old.items ++ flat_map line_bytes lines.now) }
{
    for line in lines {
        write_line(page, line)?;
    }
    Ok(())
}

/// The page of a heading and of lines, in HTML. In each text and attribute `&`, `<`, `>`, `"` and `'`
/// are `&amp;`, `&lt;`, `&gt;`, `&quot;` and `&#39;`. The texts may be any bytes.
///
/// It fails only where memory ran out. It begins with room for a page without lines, visits each byte of the heading
/// and of a field's name twice and each other byte once, and writes at most 6 bytes at each visit.
#[tactic(auto, unfolding(crate::specs::Pages::page_bytes))]
pub fn page(alloc: Global, heading: &[u8], lines: &PageLineList) -> Result<PageText, OutOfMemory>
    ensures { IfOk result (λ text. text ≡ page_bytes heading.now lines.now) }
{
    let room = heading.len().saturating_mul(2).saturating_add(TAG_BYTES);
    let mut page = Vec::with_capacity(alloc, room)?;
    write_title(&mut page, heading)?;
    write_heading(&mut page, heading)?;
    write_lines(&mut page, lines.as_slice())?;
    Ok(PageText::from_vec(page))
}
