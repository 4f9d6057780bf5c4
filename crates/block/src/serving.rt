// The device's part: what a request in a cell does to the store, and the answer in the cell.
ghost use Rattle.std.specs.Prelude.{◌≡◌, ◌*◌, length, if◌then◌else◌, Some, None};
ghost use Rattle.words.specs.Bytes.{part, overwrite};
ghost use Rattle.class.specs.Cells.{data_at, data_size};
ghost use Rattle.block.specs.Requests.{sector_size};
ghost use Rattle.block.specs.Codes.{number};
ghost use Rattle.block.specs.Layout.{asked_in};
ghost use Rattle.block.specs.Service.{has_sector, plain_read, plain_write, plain, answers};

use crate::codes::{Operation, SECTOR_SIZE, Status};
use crate::disks::sector_count;
use crate::laying::{SECTOR_AT, TYPE_AT};
use class::{DATA_AT, DATA_SIZE, STATUS_AT};
use words::{get, overwrite, part, zero};

// What the device says it wrote: the status, and a read's data before it.
const STATUS_WRITTEN: u32 = 1;

const READ_WRITTEN: u32 = 513;

// Where a sector lies in the store, if it is there. A sector is compared before it is multiplied, so no sector overflows.
fn sector_at(sector: u64, store: &[u8]) -> Option<usize>
    ensures where_it_lies { result ≡ (if has_sector store.now sector then Some (sector_size * sector) else None) }
{
    if sector < sector_count(store) {
        Some(SECTOR_SIZE * sector as usize)
    } else {
        None
    }
}

// Copies a sector into the cell's data, or zeroes the data where there is no such sector. Gives the status.
fn read_sector(sector: u64, cell: &mut [u8], store: &[u8]) -> Status
    ensures plain_status { number result ≡ (plain_read store.now sector).answer.status }
    ensures plain_data { cell.new ≡ overwrite data_at (plain_read store.now sector).answer.bytes cell.old }
{
    match sector_at(sector, store) {
        Some(at) => {
            overwrite(cell, DATA_AT, part(store, at, SECTOR_SIZE));
            Status::Ok
        }
        None => {
            zero(cell, DATA_AT, DATA_SIZE);
            Status::IoError
        }
    }
}

// Copies the cell's data into a sector, if there is such a sector. Gives the status.
fn write_sector(sector: u64, cell: &[u8], store: &mut [u8]) -> Status
    ensures plain_status { number result ≡ (plain_write store.old sector (part data_at data_size cell.now)).answer.status }
    ensures plain_store { store.new ≡ (plain_write store.old sector (part data_at data_size cell.now)).store }
{
    match sector_at(sector, store) {
        Some(at) => {
            overwrite(store, at, part(cell, DATA_AT, DATA_SIZE));
            Status::Ok
        }
        None => Status::IoError,
    }
}

// Serves the request that lies in the cell, and gives the written length.
pub(crate) fn serve_cell(cell: &mut [u8], store: &mut [u8]) -> u32
    ensures plain_written { result ≡ (plain store.old (asked_in cell.old)).answer.written }
    ensures answer_in_the_cell { cell.new ≡ answers (plain store.old (asked_in cell.old)).answer cell.old }
    ensures plain_store { store.new ≡ (plain store.old (asked_in cell.old)).store }
{
    let operation = Operation::try_from(get::<u32>(cell, TYPE_AT));
    let sector = get(cell, SECTOR_AT);
    let status = match operation {
        Ok(Operation::Read) => read_sector(sector, cell, store),
        Ok(Operation::Write) => write_sector(sector, cell, store),
        Ok(Operation::Flush) => Status::Ok,
        Err(status) => status,
    };
    overwrite(cell, STATUS_AT, &[u8::from(status)]);
    match operation {
        Ok(Operation::Read) => READ_WRITTEN,
        _ => STATUS_WRITTEN,
    }
}
