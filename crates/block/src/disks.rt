// A block store as a disk: whole sectors, each of which keeps what was last written to it.
ghost use Rattle.std.specs.Prelude.{◌≡◌, ◌/◌, length};
ghost use Rattle.entries.specs.Refusals.{unless};
ghost use Rattle.class.specs.Refusals.{store_refusal};
ghost use Rattle.block.specs.Requests.{sector_size};
ghost use Rattle.block.specs.Disk.{Disk};

use crate::codes::SECTOR_SIZE;
use class::check_store;
use entries::Refusal;

// A partial last sector does not count.
pub(crate) fn sector_count(store: &[u8]) -> u64
    ensures whole_sectors { result ≡ length store.now / sector_size }
{
    (store.len() / SECTOR_SIZE) as u64
}

// How many sectors a store has.
pub fn sectors(store: &[u8]) -> Result<u64, Refusal>
    ensures whole_sectors { result ≡ unless (store_refusal sector_size store.now) (length store.now / sector_size) }
    ensures keeps_what_is_written { Disk store.now }
{
    check_store(SECTOR_SIZE, store)?;
    Ok(sector_count(store))
}
