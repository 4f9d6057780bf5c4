// The refusals that every class shares, asked before a call touches a byte. They are asked by each call and not known of a type:
// any bytes may be lent as a cell or a store, and their size is what is judged.
ghost use Rattle.std.specs.Prelude.{◌≡◌};
ghost use Rattle.entries.specs.Refusals.{unless};
ghost use Rattle.class.specs.Refusals.{read_refusal, tag_refusal, lay_refusal, store_refusal, room_refusal, serve_refusal};

use crate::cells::CELL_SIZE;
use entries::{LAST_TAG, Refusal};

// No store is larger, so that places in it and lengths of it stay within 32 bits.
const LARGEST_STORE: usize = 4_294_967_296;

// Of reading a cell: it has to be one.
pub fn check_read(cell: &[u8]) -> Result<(), Refusal>
    ensures smallest_that_fits { result ≡ unless (read_refusal cell.now) tt }
{
    if cell.len() != CELL_SIZE {
        return Err(Refusal::CellSize);
    }
    Ok(())
}

// Of a tag: it has to have a cell.
pub fn check_tag(tag: u16) -> Result<(), Refusal>
    ensures smallest_that_fits { result ≡ unless (tag_refusal tag) tt }
{
    if tag > LAST_TAG {
        return Err(Refusal::BadEntry);
    }
    Ok(())
}

// Of laying a request: `bad` is the class's own judgement of it.
pub fn check_lay(tag: u16, bad: bool, cell: &[u8]) -> Result<(), Refusal>
    ensures smallest_that_fits { result ≡ unless (lay_refusal tag bad cell.now) tt }
{
    check_read(cell)?;
    if bad {
        return Err(Refusal::BadRequest);
    }
    check_tag(tag)
}

// Of a store: the class has to be able to work on it.
pub fn check_store(least: usize, store: &[u8]) -> Result<(), Refusal>
    ensures smallest_that_fits { result ≡ unless (store_refusal least store.now) tt }
{
    if store.len() < least || store.len() > LARGEST_STORE {
        return Err(Refusal::StoreSize);
    }
    Ok(())
}

// Of what is lent for serving: a cell and a store.
pub fn check_room(least: usize, cell: &[u8], store: &[u8]) -> Result<(), Refusal>
    ensures smallest_that_fits { result ≡ unless (room_refusal least cell.now store.now) tt }
{
    check_read(cell)?;
    check_store(least, store)
}

// Of serving an entry.
pub fn check_serve(tag: u16, least: usize, cell: &[u8], store: &[u8]) -> Result<(), Refusal>
    ensures smallest_that_fits { result ≡ unless (serve_refusal tag least cell.now store.now) tt }
{
    check_room(least, cell, store)?;
    check_tag(tag)
}
