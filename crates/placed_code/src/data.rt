//! What an image has besides its code.

use image_form::Bytes;
use items::Items;

/// Where a procedure stands in the texts.
#[derive(Clone, Copy)]
pub struct ProcName {
    /// The number of its module, in the order of the modules.
    pub module: u32,
    /// The line of its heading, or of its module's heading where it is the module's body, from 1.
    pub line: u32,
}

/// What an image has besides its code and its greatest frame.
#[derive(Drop)]
pub struct ImageData {
    /// 1 where some module reads input, else 0.
    pub flags: u32,
    /// The bytes of the globals.
    pub globals: u32,
    /// The constants.
    pub constants: Bytes,
    /// The procedures by number; none for an image that says nothing of them.
    pub names: Items<ProcName>,
}
