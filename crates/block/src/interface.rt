// The block class, as the class interface asks for it.
ghost use Rattle.block.specs.Class.{block};
ghost use Rattle.std.proofs.Common.{◌∙◌, refl};
ghost use Rattle.block.specs.Requests.{sector_size};
ghost use Rattle.block.specs.Layout.{lays};
ghost use Rattle.block.specs.Service.{plain};
ghost use Rattle.block.specs.Shapes.{legal_entry, entry_typed, own_tag, within_longest};
ghost use Rattle.block.specs.Header.{read_back, lays_length};
ghost use Rattle.block.specs.Shown.{status_shown, data_shown};
ghost use Rattle.block.specs.Touched.{lays_only_named, serves_only_writable, serves_length, store_length};

use crate::codes::{Operation, SECTOR_SIZE, is_refused};
use crate::laying::{TYPE_AT, entry_for, lay_cell};
use crate::serving::serve_cell;
use class::{Class, DATA_AT, DATA_SIZE, Request, STATUS_AT, check_lay, check_read, check_serve};
use entries::{Entry, Refusal};
use words::{get, part};

#[derive(Clone, Copy)]
pub struct Block;

impl Class for Block {
    const LONGEST_CHAIN: usize = 3;

    const LEAST_STORE: usize = SECTOR_SIZE;

    ghost LONGEST_CHAIN = { 3 };

    ghost LEAST_STORE = { sector_size };

    ghost kind = { block };

    ghost longest_as_meant = { refl };

    ghost least_as_meant = { refl };

    ghost lawful = { record {
      legal_entry = λ t r h _. legal_entry t r.code h;
      entry_typed = λ t r h _. entry_typed t r.code h;
      own_tag = λ t r. own_tag t r.code;
      within_longest = λ t r. within_longest t r.code;
      reads_back = λ t r cell fit kept whole. read_back r cell fit kept whole t;
      shows_status = λ r cell store fit kept whole. status_shown (plain store r).answer (lays r cell) (lays_length r cell ∙ whole);
      shows_data = data_shown;
      lays_length = lays_length;
      serves_length = serves_length;
      store_length = store_length;
      lays_only_named = λ t r cell kept i h. lays_only_named t r cell i kept h;
      serves_only_writable = serves_only_writable;
    } };

    fn refuses(request: Request<'_>) -> bool {
        is_refused(request)
    }

    fn lay(tag: u16, request: Request<'_>, cell: &mut [u8]) -> Result<Entry, Refusal> {
        check_lay(tag, is_refused(request), cell)?;
        lay_cell(request, cell);
        Ok(entry_for(tag, request.code))
    }

    fn serve(entry: &Entry, cell: &mut [u8], store: &mut [u8]) -> Result<u32, Refusal> {
        check_serve(entry.tag, Self::LEAST_STORE, cell, store)?;
        let stated = entry_for(entry.tag, get(cell, TYPE_AT));
        if !entry.is_same(&stated) {
            return Ok(0);
        }
        Ok(serve_cell(cell, store))
    }

    fn status(cell: &[u8]) -> Result<u8, Refusal> {
        check_read(cell)?;
        Ok(cell[STATUS_AT])
    }

    fn data<'c>(cell: &'c [u8]) -> Result<&'c [u8], Refusal> {
        check_read(cell)?;
        if Operation::try_from(get::<u32>(cell, TYPE_AT)) == Ok(Operation::Read) {
            Ok(part(cell, DATA_AT, DATA_SIZE))
        } else {
            Ok(&cell[0..0])
        }
    }
}
