// The console class, as the class interface asks for it.
ghost use Rattle.console.specs.Class.{console};
ghost use Rattle.std.specs.Prelude.{refl};
ghost use Rattle.console.specs.Holds.{legal_entry, entry_typed, within_longest, read_back, lays_length, serves_length, store_length, lays_only_named, byte_stays};

use crate::lines::{entry_for, is_refused, is_sendable};
use crate::stores;
use crate::stores::append_line;
use class::{Class, DATA_AT, Request, check_lay, check_read, check_serve};
use entries::{Entry, Refusal};
use words::{overwrite, part};

// How every line is answered: nothing in its cell is the device's to write.
const STATUS: u8 = 0;

const WRITTEN: u32 = 0;

#[derive(Clone, Copy)]
pub struct Console;

impl Class for Console {
    const LONGEST_CHAIN: usize = 1;

    const LEAST_STORE: usize = stores::LEAST_STORE;

    ghost LONGEST_CHAIN = { 1 };

    ghost LEAST_STORE = { 8 };

    ghost kind = { console };

    ghost longest_as_meant = { refl };

    ghost least_as_meant = { refl };

    ghost lawful = { record {
      legal_entry = legal_entry;
      entry_typed = entry_typed;
      own_tag = λ t r. refl;
      within_longest = within_longest;
      reads_back = λ t r cell fit kept whole. read_back t r cell kept whole;
      shows_status = λ r cell store fit kept whole. refl;
      shows_data = λ r cell store fit kept whole. refl;
      lays_length = lays_length;
      serves_length = serves_length;
      store_length = store_length;
      lays_only_named = λ t r cell kept i h. lays_only_named t r cell i h;
      serves_only_writable = λ e cell store i h. byte_stays e cell store i;
    } };

    fn refuses(request: Request<'_>) -> bool {
        is_refused(request)
    }

    fn lay(tag: u16, request: Request<'_>, cell: &mut [u8]) -> Result<Entry, Refusal> {
        check_lay(tag, is_refused(request), cell)?;
        overwrite(cell, DATA_AT, request.payload);
        Ok(entry_for(tag, request.payload.len() as u32))
    }

    fn serve(entry: &Entry, cell: &mut [u8], store: &mut [u8]) -> Result<u32, Refusal> {
        check_serve(entry.tag, Self::LEAST_STORE, cell, store)?;
        let length = entry.segments[0].length;
        if is_sendable(length as usize) && entry.is_same(&entry_for(entry.tag, length)) {
            append_line(part(cell, DATA_AT, length as usize), store);
        }
        Ok(WRITTEN)
    }

    fn status(cell: &[u8]) -> Result<u8, Refusal> {
        check_read(cell)?;
        Ok(STATUS)
    }

    fn data<'c>(cell: &'c [u8]) -> Result<&'c [u8], Refusal> {
        check_read(cell)?;
        Ok(&cell[0..0])
    }
}
