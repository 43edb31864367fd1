//! The text of the faults of a load after its first one.

ghost use Rattle.std.specs.Prelude.{◌≡◌, length, IfOk, string_bytes};
ghost use Rattle.toml.specs.View.{table_view};
ghost use Rattle.cbsrun_loads.specs.Faults.{load_faults};
ghost use Rattle.cbsrun_other_faults.specs.Others.{each_below, more_line, TellsEach, TellsOthers, TellsOthersOf};
ghost use Rattle.cbsrun_refusal_texts.specs.Pages.{Appends, AppendsA};

use cbsrun_fault_texts::explain_in;
use cbsrun_faults::Document;
use cbsrun_loads::load_faults;
use cbsrun_refusal_texts::Page;
use cbsrun_toml_tables::{FileFault, FileKind, document};
use std::alloc::{AllocError, Global};

/// Appends the explanation of each of these faults, after an empty line.
fn append_each(page: &mut Page, document: Document<'_>, faults: &[FileFault])
    ensures { AppendsA (TellsEach (length faults.now)) page.old page.new }
{
    for fault in faults {
        let text = explain_in(page.alloc(), document, *fault);
        let Some(text) = page.accept(text) else {
            return;
        };
        page.push_all(&["\n", text.as_str()]);
    }
}

/// Appends how many more faults there are, after an empty line. Appends nothing if there are no more.
fn append_more(page: &mut Page, count: u64)
    ensures { Appends page.old page.new (more_line count) }
{
    if count > 0 {
        page.push_number("\nand ", count);
        page.push(" more\n");
    }
}

/// Appends what is told of the faults of a load after the first one.
fn append_others(page: &mut Page, document: Document<'_>, most: usize)
    ensures { AppendsA (TellsOthers most (load_faults (table_view document.entry.top.now)))
        page.old page.new }
{
    let faults = load_faults(page.alloc(), document.top, most);
    let Some(faults) = page.accept(faults) else {
        return;
    };
    append_each(page, document, faults.first.get(1..).unwrap_or(&[]));
    append_more(page, faults.count.saturating_sub(faults.first.len() as u64));
}

/// Appends what is told of the faults of the load that the bytes spell after the first one.
fn append_others_of(page: &mut Page, name: &str, bytes: &[u8], most: usize)
    ensures { AppendsA (TellsOthersOf most bytes.now) page.old page.new }
{
    match document(page.alloc(), bytes) {
        Ok(top) => append_others(
            page,
            Document::new(name, std::str::from_utf8(bytes).unwrap_or(""), &top),
            most,
        ),
        Err(kind) => {
            if kind == FileKind::OutOfMemory {
                page.fail();
            }
        }
    }
}

/// Returns the explanations of the faults of a load file after its first one, each after an empty line. At most `most`
/// faults are told, with the first. If there are more, the last line says how many, after an empty line. Of any other
/// file this is empty. The bytes are read again. The only error is out of memory.
pub fn explain_others(
    alloc: Global,
    name: &str,
    bytes: &[u8],
    most: usize,
) -> Result<String, AllocError>
    ensures others { IfOk result (λ text. TellsOthersOf most bytes.now (string_bytes text)) }
{
    let mut page = Page::new(alloc);
    append_others_of(&mut page, name, bytes, most);
    page.finish()
}
