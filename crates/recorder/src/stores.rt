// The copies of a close: images into the side file and due pages into the base, both from the page buffer.
ghost use Rattle.std.specs.Prelude.{◌≡◌, true, ◌≤◌, ◌<◌, ◌*◌, length, take};
ghost use Rattle.lists.specs.Scans.{Every};
ghost use Rattle.units.specs.Sizes as Sizes;
ghost use Rattle.units.specs.inner.Pages.{numbers_of};
ghost use Rattle.ledger.specs.Entries.{page_of};
ghost use Rattle.ledger.specs.View.{entries_in};
ghost use Rattle.recorder.specs.World.{bytes_in};
ghost use Rattle.recorder.specs.inner.Copies.{shown, images_laid, image_sums, due_laid};

use crate::State;
use crate::plan::Plan;
use ledger::{renewal, rows};
use slots::lookup;
use units::{Page, Tick};

// The bytes of a page in the page buffer; none if it is in no slot.
#[tactic(auto, using(crate::proofs::Copying::seats))]
fn held<'a>(state: &State, buffer: &'a [u8], page: Page) -> &'a [u8]
    requires { (Sizes.limits state.now.settings ≡ true) × (Sizes.buffer_length state.now.settings ≤ length buffer.now) }
    ensures { result.now ≡ bytes_in (shown state.now.settings state.now.slots.pages buffer.now) page.0 }
{
    let size = state.settings.size as usize;
    match lookup::slot_in(&state.slots.pages, state.settings.slots as usize, page) {
        Some(i) => {
            let start = i * size;
            &buffer[start..start + size]
        }
        None => &[],
    }
}

// The images of the changed pages of a plan into their places. Answers their checksums.
#[tactic(auto, using(crate::proofs::Copying::images))]
pub fn write_images(state: &State, buffer: &[u8], side: &mut [u8], plan: &Plan) -> [u32; 16]
    requires { (Sizes.limits state.now.settings ≡ true) × (Sizes.buffer_length state.now.settings ≤ length buffer.now) × (Sizes.side_length state.now.settings ≤ length side.old) × (plan.now.count ≤ 16) × Every (λ q. q.0 < Sizes.places state.now.settings) (take plan.now.count plan.now.places) }
    ensures { (take plan.now.count result ≡ image_sums (shown state.now.settings state.now.slots.pages buffer.now) (numbers_of plan.now.count plan.now.pages)) × (side.new ≡ images_laid (shown state.now.settings state.now.slots.pages buffer.now) plan.now.pages plan.now.places plan.now.count side.old) }
{
    let mut sums = [0; 16];
    // By index: what is written through `iter_mut` is unknown to a proof.
    for j in 0..plan.count {
        let image = held(state, buffer, plan.pages[j]);
        sums[j] = lookup3::checksum(image);
        octets::copy(
            image,
            0,
            side,
            state.settings.image_at(plan.places[j]),
            image.len(),
        );
    }
    sums
}

// The pages of the due ones among n entries into the base.
#[tactic(auto, using(crate::proofs::Copying::dues))]
pub fn write_due(state: &State, ledger: &[u8], n: usize, buffer: &[u8], base: &mut [u8], tick: Tick)
    requires { (Sizes.limits state.now.settings ≡ true) × (n * Sizes.entry_row ≤ length ledger.now) × (Sizes.buffer_length state.now.settings ≤ length buffer.now) × (Sizes.base_length state.now.settings ≤ length base.old) × Every (λ e. page_of e < state.now.settings.capacity) (entries_in n ledger.now) }
    ensures { base.new ≡ due_laid (shown state.now.settings state.now.slots.pages buffer.now) tick (entries_in n ledger.now) base.old }
{
    let size = state.settings.size as usize;
    let wait = state.settings.wait();
    for i in 0..n {
        let e = rows::entry_at(ledger, i);
        if renewal::is_due(e, wait, tick) {
            let page = held(state, buffer, e.page);
            octets::copy(page, 0, base, e.page.0 as usize * size, page.len());
        }
    }
}
