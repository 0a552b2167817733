//! The page of a trace.

ghost use Rattle.std.specs.Prelude.{◌≡◌, ◌++◌, IfOk, OnOk};
ghost use Rattle.draw_run.specs.page.Page.{data_of, head, number, numbers, page_of, tail};

use crate::page::embedding::push_embedded;
use crate::page::markup::{BODY, HEAD, STYLE};
use crate::page::script_run::SCRIPT_RUN;
use crate::page::script_view::SCRIPT_VIEW;
use std::alloc::{AllocError, Global};
use uas_decode::decoded;
use uas_profile::EVENT_RING_PLACES;

/// The page of a trace of so many clients with so many tags each.
#[tactic(auto, unfolding(crate::specs::page::Page::page_of))]
pub fn page(alloc: Global, clients: u8, tags: usize, trace: &[u8]) -> Result<Vec<u8>, AllocError>
    ensures { IfOk result (λ page. page.items ≡ page_of clients tags trace.now) }
{
    let mut page = Vec::new(alloc);
    push_head(&mut page)?;
    push_data(&mut page, clients, tags, trace)?;
    push_tail(&mut page)?;
    Ok(page)
}

/// Adds what stands before the data: the style and the elements.
#[tactic(auto, unfolding(crate::specs::page::Page::head))]
fn push_head(page: &mut Vec<u8>) -> Result<(), AllocError>
    ensures { OnOk result (page.new.items ≡ page.old.items ++ head) }
{
    page.extend_from_slice(HEAD.as_bytes())?;
    page.extend_from_slice(STYLE.as_bytes())?;
    page.extend_from_slice(BODY.as_bytes())?;
    Ok(())
}

/// Adds a trace as data, with what its bytes say.
#[tactic(auto, unfolding(crate::specs::page::Page::data_of))]
fn push_data(page: &mut Vec<u8>, clients: u8, tags: usize, trace: &[u8]) -> Result<(), AllocError>
    ensures { OnOk result (page.new.items ≡ page.old.items ++ data_of clients tags trace.now) }
{
    push_numbers(page, clients, tags)?;
    page.extend_from_slice(b",\"text\":\"")?;
    let text = decoded(*page.allocator(), trace)?;
    push_embedded(page, &text)?;
    page.extend_from_slice(b"\"}")
}

/// Adds the numbers that the script asks for.
#[tactic(auto, unfolding(crate::specs::page::Page::numbers))]
fn push_numbers(page: &mut Vec<u8>, clients: u8, tags: usize) -> Result<(), AllocError>
    ensures { OnOk result (page.new.items ≡ page.old.items ++ numbers clients tags) }
{
    push_number(page, "{\"clients\":", usize::from(clients))?;
    push_number(page, ",\"tags\":", tags)?;
    push_number(page, ",\"events\":", EVENT_RING_PLACES)?;
    Ok(())
}

/// Adds a number behind its name.
#[tactic(auto, unfolding(crate::specs::page::Page::number))]
fn push_number(page: &mut Vec<u8>, name: &str, value: usize) -> Result<(), AllocError>
    ensures { OnOk result (page.new.items ≡ page.old.items ++ number name.now value) }
{
    page.extend_from_slice(name.as_bytes())?;
    let digits = format!(in *page.allocator(); "{value}")?;
    page.extend_from_slice(digits.as_bytes())
}

/// Adds what stands behind the data: the script.
#[tactic(auto, unfolding(crate::specs::page::Page::tail))]
fn push_tail(page: &mut Vec<u8>) -> Result<(), AllocError>
    ensures { OnOk result (page.new.items ≡ page.old.items ++ tail) }
{
    page.extend_from_slice(SCRIPT_RUN.as_bytes())?;
    page.extend_from_slice(SCRIPT_VIEW.as_bytes())?;
    Ok(())
}
