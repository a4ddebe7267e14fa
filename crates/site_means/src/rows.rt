//! Rows changed by the items of a group.

ghost use Rattle.std.specs.Prelude.{◌≡◌, IfOk, IsTrue, true};
ghost use Rattle.pair_table.specs.Tables.{MayPut, with_row, with_rows, are_below};
ghost use Rattle.pair_table.specs.Rows.{keeps_row_rules};
ghost use Rattle.state_set.specs.Slots.{are_rows};
ghost use Rattle.xrc_journal.specs.Items.{AreItems, Earlier, Item, anywhere, is_item};
ghost use Rattle.xrc_journal.specs.Views.{told};
ghost use Rattle.site_means.specs.Walk.{fits_rows, rows_by};
ghost use Rattle.site_means.specs.Steps.{TakesRows};

use pair_table::{PairRow, PairTable};
use std::alloc::Global;
use xrc_edge::NoMemory;
use xrc_journal::{Body, BodyItem, first_item};

/// Whether the rows keep the rules with a row put into the table, which is one by itself.
fn may_take(volumes: u16, table: &PairTable, row: &PairRow) -> bool
    ensures keep { IsTrue (keeps_row_rules row.now) → IsTrue (are_below volumes table.now.rows) → result ≡ are_rows volumes (with_row row.now table.now.rows) }
    ensures may { IsTrue result → MayPut row.now table.now.rows }
{
    row.device < volumes && table.may_put(row)
}

/// Changes the table by an item. False where the item doesn't fit the rows.
fn take_item(
    alloc: Global,
    volumes: u16,
    table: &mut PairTable,
    item: BodyItem,
) -> Result<bool, NoMemory>
    ensures fits { (earlier : Earlier) (i : Item) → IsTrue (is_item anywhere earlier i) → item ≡ told i → IsTrue (are_below volumes table.old.rows) → IfOk result (λ fits. fits ≡ fits_rows volumes table.old.rows i) }
    ensures taken { (i : Item) → item ≡ told i → IfOk result (λ fits. fits ≡ true → table.new ≡ with_rows table.old (rows_by i table.old.rows)) }
{
    match item {
        BodyItem::Image { .. } => Ok(true),
        BodyItem::Pair(row) => {
            if !may_take(volumes, table, &row) {
                return Ok(false);
            }
            table.put_row(alloc, row)?;
            Ok(true)
        }
        BodyItem::Gone { device } => {
            if table.row_of(device).is_none() {
                return Ok(false);
            }
            table.remove(device);
            Ok(true)
        }
    }
}

/// Changes the table by the items of a body, up to the first that doesn't fit the rows, and gives how many bytes stand before
/// that one.
pub(crate) fn take_rows(
    alloc: Global,
    volumes: u16,
    table: &mut PairTable,
    body: &Body,
) -> Result<Option<usize>, NoMemory>
    ensures items { AreItems anywhere body.now.items }
    ensures rows { IsTrue (are_below volumes table.old.rows) → IfOk result (λ bad. TakesRows volumes 0 body.now.items bad table.old table.new) }
{
    let bytes = body.bytes();
    let mut at = 0;
    while let Some((item, length)) = first_item(&bytes[at..]) {
        if !take_item(alloc, volumes, table, item)? {
            return Ok(Some(at));
        }
        at += length;
    }
    Ok(None)
}
