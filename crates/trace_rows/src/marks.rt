//! Marks of HTML.

ghost use Rattle.std.specs.Prelude.{◌≡◌, ◌++◌, OnOk};
ghost use Rattle.trace_rows.specs.Marks.{value_begin, off_begin, on_begin, number_begin, hue_begin, held_begin, cell_end, homes_begin, row_begin, head_begin, text_begin, words_begin, row_end, edge_to};

use html_text::put_text;
use std::alloc::AllocError;

#[tactic(auto, unfolding(crate::specs::Marks::value_begin))]
pub(crate) fn put_value_begin(text: &mut Vec<u8>) -> Result<(), AllocError>
    ensures { OnOk result (text.new.items ≡ text.old.items ++ value_begin) }
{
    put_text(text, b"<i data-v=\"")
}

#[tactic(auto, unfolding(crate::specs::Marks::off_begin))]
pub(crate) fn put_off_begin(text: &mut Vec<u8>) -> Result<(), AllocError>
    ensures { OnOk result (text.new.items ≡ text.old.items ++ off_begin) }
{
    put_text(text, b"<td class=\"off")
}

#[tactic(auto, unfolding(crate::specs::Marks::on_begin))]
pub(crate) fn put_on_begin(text: &mut Vec<u8>) -> Result<(), AllocError>
    ensures { OnOk result (text.new.items ≡ text.old.items ++ on_begin) }
{
    put_text(text, b"<td class=\"on")
}

#[tactic(auto, unfolding(crate::specs::Marks::row_begin))]
pub(crate) fn put_row_begin(text: &mut Vec<u8>) -> Result<(), AllocError>
    ensures { OnOk result (text.new.items ≡ text.old.items ++ row_begin) }
{
    put_text(text, b"<tr class=\"")
}

#[tactic(auto, unfolding(crate::specs::Marks::head_begin))]
pub(crate) fn put_head_begin(text: &mut Vec<u8>) -> Result<(), AllocError>
    ensures { OnOk result (text.new.items ≡ text.old.items ++ head_begin) }
{
    put_text(text, b"<tr class=\"head\" id=\"p")
}

#[tactic(auto, unfolding(crate::specs::Marks::text_begin))]
pub(crate) fn put_text_begin(text: &mut Vec<u8>) -> Result<(), AllocError>
    ensures { OnOk result (text.new.items ≡ text.old.items ++ text_begin) }
{
    put_text(text, b"\"><td class=\"text\">")
}

#[tactic(auto, unfolding(crate::specs::Marks::words_begin))]
pub(crate) fn put_words_begin(text: &mut Vec<u8>) -> Result<(), AllocError>
    ensures { OnOk result (text.new.items ≡ text.old.items ++ words_begin) }
{
    put_text(text, b"</td><td class=\"words\">")
}

#[tactic(auto, unfolding(crate::specs::Marks::row_end))]
pub(crate) fn put_row_end(text: &mut Vec<u8>) -> Result<(), AllocError>
    ensures { OnOk result (text.new.items ≡ text.old.items ++ row_end) }
{
    put_text(text, b"</td></tr>\n")
}

#[tactic(auto, unfolding(crate::specs::Marks::edge_to))]
pub(crate) fn put_edge_to(text: &mut Vec<u8>) -> Result<(), AllocError>
    ensures { OnOk result (text.new.items ≡ text.old.items ++ edge_to) }
{
    put_text(text, b"edge to block ")
}

#[tactic(auto, unfolding(crate::specs::Marks::number_begin))]
pub(crate) fn put_number_begin(text: &mut Vec<u8>) -> Result<(), AllocError>
    ensures { OnOk result (text.new.items ≡ text.old.items ++ number_begin) }
{
    put_text(text, b"\" data-v=\"")
}

#[tactic(auto, unfolding(crate::specs::Marks::hue_begin))]
pub(crate) fn put_hue_begin(text: &mut Vec<u8>) -> Result<(), AllocError>
    ensures { OnOk result (text.new.items ≡ text.old.items ++ hue_begin) }
{
    put_text(text, b"\" style=\"--h:")
}

#[tactic(auto, unfolding(crate::specs::Marks::held_begin))]
pub(crate) fn put_held_begin(text: &mut Vec<u8>) -> Result<(), AllocError>
    ensures { OnOk result (text.new.items ≡ text.old.items ++ held_begin) }
{
    put_text(text, b"\">v")
}

#[tactic(auto, unfolding(crate::specs::Marks::cell_end))]
pub(crate) fn put_cell_end(text: &mut Vec<u8>) -> Result<(), AllocError>
    ensures { OnOk result (text.new.items ≡ text.old.items ++ cell_end) }
{
    put_text(text, b"</td>")
}

#[tactic(auto, unfolding(crate::specs::Marks::homes_begin))]
pub(crate) fn put_homes_begin(text: &mut Vec<u8>) -> Result<(), AllocError>
    ensures { OnOk result (text.new.items ≡ text.old.items ++ homes_begin) }
{
    put_text(text, b"<td class=\"homes\">")
}
