//! One module more.

ghost use Rattle.std.specs.Prelude.{◌≡◌, Some, suc, slice_get, IfOk, IfErr};
ghost use Rattle.ob_read.specs.Texts.{IsModuleText};
ghost use Rattle.source_program.specs.Behind.{IsBehind};
ghost use Rattle.source_program.specs.Texts.{IsSourceFault};

use crate::fault::{SourceFault, of_judging, of_reading};
use check_modules::check_module;
use check_modules::programs::Modules;
use check_types::steps::Source;
use items::Items;
use ob_read::{ModuleText, read_module};
use std::alloc::Global;

// A module that was read is judged.
fn judged(
    state: Modules,
    alloc: Global,
    texts: &[Items<u8>],
    index: usize,
    bytes: &[u8],
    text: ModuleText,
) -> Result<Modules, SourceFault>
    requires behind { IsBehind texts.now index state }
    requires own_text { slice_get texts.now index ≡ Some bytes.now }
    requires text { IsModuleText bytes.now text.symbols.items text.tree }
    ensures behind { IfOk result (λ s. IsBehind texts.now (suc index) s) }
    ensures fault { IfErr result (λ e. IsSourceFault texts.now e) }
{
    let ModuleText { symbols, tree } = text;
    let source = Source::new(bytes, symbols.as_slice());
    match check_module(state, alloc, texts, &source, tree) {
        Ok(state) => Ok(state),
        Err(fault) => Err(of_judging(index, fault)),
    }
}

/// The module of this number is read, and judged behind those before.
pub(crate) fn one_more(
    state: Modules,
    alloc: Global,
    texts: &[Items<u8>],
    index: usize,
    bytes: &[u8],
) -> Result<Modules, SourceFault>
    requires behind { IsBehind texts.now index state }
    requires own_text { slice_get texts.now index ≡ Some bytes.now }
    ensures behind { IfOk result (λ s. IsBehind texts.now (suc index) s) }
    ensures fault { IfErr result (λ e. IsSourceFault texts.now e) }
{
    match read_module(alloc, bytes) {
        Ok(text) => judged(state, alloc, texts, index, bytes, text),
        Err(fault) => Err(of_reading(index, fault)),
    }
}
