//! Text on its way to a sink. It is gathered on a page, so that the sink is given few large pieces.
ghost use Rattle.std.specs.Prelude.{◌≡◌, ◌≤◌, ◌++◌, [], OnOk, OnErr};
ghost use Rattle.xb_io.specs.Pages.{Gathers, Puts};

use crate::{Failed, Sink};
use std::alloc::{AllocError, Global};
use xb_values::Buf;

/// Why a text was not written to its end: the sink failed, or want of memory.
#[derive(Clone, Copy, Debug, PartialEq, Eq)]
pub enum Halt {
    WriteFault,
    OutOfMemory,
}

impl From<Failed> for Halt {
    ghost use Rattle.xb_io.specs.declared.page.Halt.TheVariants.{WriteFault};

    ghost from_gives = { λ _ halt. halt ≡ WriteFault };

    fn from(_failed: Failed) -> Halt {
        Halt::WriteFault
    }
}

impl From<AllocError> for Halt {
    ghost use Rattle.xb_io.specs.declared.page.Halt.TheVariants.{OutOfMemory};

    ghost from_gives = { λ _ halt. halt ≡ OutOfMemory };

    fn from(_error: AllocError) -> Halt {
        Halt::OutOfMemory
    }
}

/// Writes the text to the sink.
pub fn put_text<K: Sink>(sink: &mut K, text: &[u8]) -> Result<(), Halt>
    ensures { Puts K.took K.faults sink.old sink.new text.now result }
{
    match sink.put(text) {
        Ok(()) => Ok(()),
        Err(_) => Err(Halt::WriteFault),
    }
}

// Appends the text to a page that is emptied first, or writes it to the sink if it is longer than a page.
#[tactic(auto, using(crate::proofs::PageLemmas::gathered_on_page, crate::proofs::PageLemmas::gathers_past_page))]
fn on_new_page<K: Sink>(page: &mut Buf, text: &[u8], sink: &mut K) -> Result<(), Halt>
    ensures { Gathers K.took K.faults sink.old sink.new [] page.new.octets text.now result }
{
    page.clear();
    if page.push(text) {
        return Ok(());
    }
    put_text(sink, text)
}

/// Appends text to the page. If it does not fit, the page is first written to the sink and emptied; a text that is
/// longer than a page is then written to the sink itself. What is on the page in the end is for the caller to write.
pub fn gather<K: Sink>(page: &mut Buf, text: &[u8], sink: &mut K) -> Result<(), Halt>
    ensures { Gathers K.took K.faults sink.old sink.new page.old.octets page.new.octets text.now result }
{
    if page.push(text) {
        return Ok(());
    }
    put_text(sink, page.as_slice())?;
    on_new_page(page, text, sink)
}

/// Empties a line and gives it at least that capacity. The error is want of memory.
pub fn begin_line(alloc: Global, line: &mut Buf, capacity: usize) -> Result<(), AllocError>
    ensures empty { OnOk result (line.new.octets ≡ []) }
    ensures room { OnOk result (capacity ≤ line.new.capacity) }
{
    line.clear();
    if line.room() < capacity {
        *line = Buf::make(alloc, capacity)?;
    }
    Ok(())
}
