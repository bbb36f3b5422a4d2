// Reads numbers of parties with masks on standard input, and prints for each how large the set is. docs/FORMATS.md says what stands where.
#![tactic(auto)]

ghost use Rattle.std.specs.Prelude.{◌≡◌, ◌+◌, ◌≤◌, length};
ghost use Rattle.text.specs.Texts.{Room};

use std::io::Print;
use text::Page;

// The bytes of an entry: the number of parties, and the mask.
const ENTRY: usize = 9;

// The most bytes of a stream.
const STREAM: usize = 65536;

// Room for a line for each entry of the longest stream and for one that is cut, of up to 39 bytes each.
const LINES: usize = 284000;

// How many of the first party, of the first two, and so on to the first `n`, are in the set, added up.
fn sizes(mask: u64, n: u8) -> u32 {
    (0..n).map(|i| sets::size(mask, i + 1) as u32).sum()
}

// The mask of an entry, from its upper half and its lower.
fn mask_of(entry: &[u8]) -> u64 {
    records::number(entry, 1) as u64 * 4294967296 + records::number(entry, 5) as u64
}

// The line of an entry.
fn put_entry(page: &mut Page, entry: &[u8])
    requires { Room page.old 39 }
    ensures buffer { page.new.out.ghost_name ≡ page.old.out.ghost_name }
    ensures room { (length page.new.out.now ≡ length page.old.out.now) × (page.new.len ≤ page.old.len + 39) }
{
    let n = records::byte(entry, 0);
    let mask = mask_of(entry);
    let bits = sets::bits_set(mask) as u32;
    let size = sets::size(mask, n) as u32;
    page.put_line(b"count", &[bits, size, sizes(mask, n)]);
}

// The lines of a stream.
fn put_entries(page: &mut Page, s: &[u8])
    requires { (length s.now ≤ 65536) × Room page.old 284000 }
    ensures buffer { page.new.out.ghost_name ≡ page.old.out.ghost_name }
    ensures room { (length page.new.out.now ≡ length page.old.out.now) × (page.new.len ≤ page.old.len + 284000) }
{
    let entries = s.chunks_exact(ENTRY);
    let rest = entries.remainder();
    for entry in entries {
        put_entry(page, entry);
    }
    if !rest.is_empty() {
        page.put_text(b"broken\n");
    }
}

// Prints the lines of a stream.
fn tell(rt: &impl Print, s: &[u8])
    requires { length s.now ≤ 65536 }
{
    let mut lines = [0u8; LINES];
    let mut page = Page::of(&mut lines);
    put_entries(&mut page, s);
    let size = page.len;
    console::print_bytes(rt, &lines[..size]);
}

fn main(rt: HostRuntime) {
    // One byte more than a stream may have, so that one which is too long is seen.
    let mut stream = [0u8; STREAM + 1];
    console::serve_input(
        &rt,
        &mut rt.stdin(),
        "teller",
        "masks",
        &mut stream,
        |s| tell(&rt, s),
    );
}
