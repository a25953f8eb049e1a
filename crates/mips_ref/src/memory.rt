// Flat memory: declared ranges, their bytes, and the byte order.
ghost use Rattle.std.specs.Prelude.{ℕ, Some, None, IfNone, ◌≡◌, ◌<◌, ◌≤◌, ◌+◌, ◌*◌, ◌^◌, ◌%◌, length, slice_index, slice_index_or, IfSome, ◌-◌, replicate, nat_le, ◌&&◌, vec_len};
ghost use Rattle.std.specs.Option.{option_map};
ghost use Rattle.visa_io.specs.declared.records.Span.{Span};
ghost use Rattle.mips_ref.specs.Access.{each_lane, lane_passes, load_allowed, refuses_of, store_allowed};
ghost use Rattle.mips_ref.specs.Held.{firsts_from, set_lane, set_lanes, set_run, Stands};
ghost use Rattle.mips_ref.specs.Memory.{LaidOut, AllDeclared, IsMemory, port, input_buffer, put_bytes, place_from, place_of, masks, byte_at, lanes_at, put_byte, put_lane, put_lanes, readable_at, run_from, storable_at, takes_stores, code_word_at, or_zero, in_order, turned};

use crate::access::{is_output, load_aligned, load_mask, ranked_byte, store_aligned, store_mask};
use crate::place::Place;
use crate::records::TrapKind;
use mips_isa::{Instr, LoadOp, StoreOp};
use std::marker::Model;
use visa_io::Span;

// The address of the output port.
pub const PORT: u32 = 0xffff_0000;

/// Memory of declared ranges. Contracts see the ranges by rising address, the bytes of all of them one after the
/// other, and the byte order.
#[derive(Debug, Drop)]
pub struct Memory {
    pub(crate) spans: Vec<Span>,
    // of each range, how many bytes come before it
    pub(crate) firsts: Vec<u32>,
    pub(crate) bytes: Vec<u8>,
    pub(crate) big: bool,
}

impl Model for Memory {
    ghost use Rattle.mips_ref.specs.Memory.{Flat};
    ghost use Rattle.mips_ref.specs.Held.{IsKept};

    ghost Value = { Flat };

    ghost view = { λ m. record { spans = m.spans.items; bytes = m.bytes.items; big = m.big } };

    ghost invariant = { λ m. IsKept (record { spans = m.spans.items; bytes = m.bytes.items; big = m.big }) m.firsts.items };
}

// How many ranges begin at an address or below.
fn begun(spans: &[Span], at: u32) -> usize
    requires { LaidOut 0 spans.now }
    ensures within { result ≤ length spans.now }
    ensures at_most { (k : ℕ) (d : Span) → k < result → (slice_index_or spans.now k d).start ≤ at }
    ensures past { (k : ℕ) (d : Span) → result ≤ k → k < length spans.now → at < (slice_index_or spans.now k d).start }
{
    spans.partition_point(|s| s.start <= at)
}

// The place of an address: a binary search for the last range that doesn't begin past it.
fn find(spans: &[Span], firsts: &[u32], at: u32) -> Option<Place>
    requires laid_out { LaidOut 0 spans.now }
    requires firsts_are { firsts.now ≡ firsts_from 0 spans.now }
    ensures { result ≡ place_from 0 spans.now at }
{
    let above = begun(spans, at);
    if above == 0 {
        return None;
    }
    let span = spans[above - 1];
    let offset = at - span.start;
    if offset < span.len {
        Some(Place {
            span,
            index: firsts[above - 1] as usize + offset as usize,
        })
    } else {
        None
    }
}

// Four bytes as bits 0 to 31 of a word, the first one lowest.
fn four(bytes: &[u8], index: usize) -> u32
    requires { index + 4 ≤ length bytes.now }
    ensures { result ≡ slice_index bytes.now index + 2 ^ 8 * slice_index bytes.now (index + 1)
        + 2 ^ 16 * slice_index bytes.now (index + 2) + 2 ^ 24 * slice_index bytes.now (index + 3) }
{
    let low = u32::from(bytes[index]) + (u32::from(bytes[index + 1]) << 8);
    let high = u32::from(bytes[index + 2]) + (u32::from(bytes[index + 3]) << 8);
    low + (high << 16)
}

// A run of bytes from an index on becomes these, or zeros.
#[tactic(auto, using(crate::proofs::Runs::set_run_more), unfolding(crate::specs::Held::set_run))]
fn set_run(bytes: &mut Vec<u8>, index: usize, run: &[u8])
    requires { index + length run.now ≤ vec_len bytes.old }
    ensures items { bytes.new.items ≡ set_run bytes.old.items index run.now }
    ensures len { vec_len bytes.new ≡ vec_len bytes.old }
{
    for (k, b) in run.iter().enumerate() {
        bytes[index + k] = *b;
    }
}

#[tactic(auto, using(crate::proofs::Runs::set_zeros_more), unfolding(crate::specs::Held::set_run))]
fn clear_run(bytes: &mut Vec<u8>, index: usize, len: u32)
    requires { index + len ≤ vec_len bytes.old }
    ensures items { bytes.new.items ≡ set_run bytes.old.items index (replicate len 0) }
    ensures len { vec_len bytes.new ≡ vec_len bytes.old }
{
    for k in 0..len {
        bytes[index + k as usize] = 0;
    }
}

// Whether the four bytes from an address on stand in a range.
fn whole(span: Span, at: u32) -> bool
    ensures { result ≡ nat_le (at + 4) (span.start + span.len) }
{
    u64::from(at) + 4 <= u64::from(span.start) + u64::from(span.len)
}

// Whether the range is executable and has the four bytes from an address on.
fn runs(span: Span, at: u32) -> bool
    ensures { result ≡ (span.x && nat_le (at + 4) (span.start + span.len)) }
{
    span.x && whole(span, at)
}

// The word that a byte order reads in four bytes, and the bytes of a word.
pub fn ordered(word: u32, big: bool) -> u32
    ensures { result ≡ in_order big word }
{
    if big { word.swap_bytes() } else { word }
}

// An executable range takes no stores, whatever its flags.
pub fn takes_stores(span: Span) -> bool
    ensures { result ≡ takes_stores span }
{
    span.w && !span.x
}

// Bit j of a mask.
fn masked(mask: u8, j: u32) -> bool
    requires { j < 4 }
    ensures { result ≡ masks mask j }
{
    (mask >> j) % 2 == 1
}

// A byte changes where the mask has it.
#[tactic(auto, unfolding(crate::specs::Held::set_lane))]
fn set_lane(bytes: &mut Vec<u8>, index: usize, j: u32, mask: u8, word: u32)
    requires lane { j < 4 }
    requires room { index + j < vec_len bytes.old }
    ensures items { bytes.new.items ≡ set_lane j index mask word bytes.old.items }
    ensures len { vec_len bytes.new ≡ vec_len bytes.old }
{
    if masked(mask, j) {
        bytes[index + j as usize] = ranked_byte(word, j);
    }
}

// Of four bytes, those of the mask change.
#[tactic(auto, unfolding(crate::specs::Held::set_lanes))]
fn set_lanes(bytes: &mut Vec<u8>, index: usize, mask: u8, word: u32)
    requires { index + 4 ≤ vec_len bytes.old }
    ensures items { bytes.new.items ≡ set_lanes index mask word bytes.old.items }
    ensures len { vec_len bytes.new ≡ vec_len bytes.old }
{
    set_lane(bytes, index, 0, mask, word);
    set_lane(bytes, index, 1, mask, word);
    set_lane(bytes, index, 2, mask, word);
    set_lane(bytes, index, 3, mask, word);
}

impl Memory {
    // The place of an address, whose byte is there.
    #[tactic(auto, using(crate::proofs::Found::each_stands))]
    pub(crate) fn place(&self, at: u32) -> Option<Place>
        ensures found { result ≡ place_of self.now at }
        ensures stands { IfSome result (Stands self.now at) }
        ensures kept { IsMemory self.now }
    {
        find(&self.spans, &self.firsts, at)
    }

    /// The byte at an address; None exactly where the address isn't declared. Takes no memory.
    pub fn byte(&self, at: u32) -> Option<u8>
        ensures { result ≡ byte_at self.now at }
    {
        match self.place(at) {
            None => None,
            Some(place) => Some(self.bytes[place.index]),
        }
    }

    /// The bytes from an address on that stand in its range, `most` at most; None exactly where the address isn't declared.
    /// Takes no memory.
    #[tactic(auto, unfolding(crate::specs::Memory::run_from))]
    pub fn bytes_from(&self, at: u32, most: u32) -> Option<&[u8]>
        ensures run { option_map (λ run. run.now) result ≡ run_from self.now at most }
        ensures each { IfSome result (λ run. (k : ℕ) → k < length run.now
            → byte_at self.now (at + k) ≡ Some (slice_index run.now k)) }
        ensures some { IfSome result (λ run. 0 < most → 0 < length run.now) }
        ensures few { IfSome result (λ run. length run.now ≤ most) }
        ensures none { IfNone result (byte_at self.now at ≡ None) }
    {
        let Some(place) = self.place(at) else {
            return None;
        };
        let rest = place.span.start + place.span.len - at;
        let count = rest.min(most) as usize;
        Some(&self.bytes[place.index..place.index + count])
    }

    /// Whether the byte at the lowest address of a word is its most significant one. Takes no memory.
    pub fn big(&self) -> bool
        ensures { result ≡ self.now.big }
    {
        self.big
    }

    /// The word at an address of code, a multiple of four whose four bytes stand in one executable range; None exactly
    /// where the address is no such one. Takes no memory.
    #[tactic(auto, using(crate::proofs::Found::code_misaligned, crate::proofs::Found::code_undeclared, crate::proofs::Found::code_found, crate::proofs::Found::code_elsewhere))]
    pub fn code_at(&self, at: u32) -> Option<u32>
        ensures value { result ≡ code_word_at self.now at }
        ensures below_port { IfSome result (λ _. at + 4 ≤ port) }
    {
        if at % 4 != 0 {
            return None;
        }
        let Some(place) = self.place(at) else {
            return None;
        };
        if runs(place.span, at) {
            Some(ordered(four(&self.bytes, place.index), self.big))
        } else {
            None
        }
    }

    // A byte, or 0 where the address isn't declared.
    fn byte_or_zero(&self, at: u32) -> u8
        ensures { result ≡ or_zero (byte_at self.now at) }
    {
        self.byte(at).unwrap_or(0)
    }

    // Four bytes, each found by itself.
    fn apart(&self, at: u32) -> u32
        requires { at % 4 ≡ 0 }
        ensures { result ≡ lanes_at self.now at }
    {
        let low = u32::from(self.byte_or_zero(at)) + (u32::from(self.byte_or_zero(at + 1)) << 8);
        let high = u32::from(self.byte_or_zero(at + 2))
            + (u32::from(self.byte_or_zero(at + 3)) << 8);
        low + (high << 16)
    }

    // The four bytes from a multiple of four on, the first as bits 0 to 7; bytes that aren't declared are 0.
    #[tactic(auto, using(crate::proofs::Found::lanes_whole))]
    pub(crate) fn lanes(&self, at: u32) -> u32
        requires { at % 4 ≡ 0 }
        ensures { result ≡ lanes_at self.now at }
    {
        if let Some(place) = self.place(at) {
            if whole(place.span, at) {
                return four(&self.bytes, place.index);
            }
        }
        self.apart(at)
    }

    // An address can be loaded from.
    fn readable(&self, at: u32) -> bool
        ensures { result ≡ readable_at self.now at }
    {
        if at >= PORT && at - PORT < 4 {
            return true;
        }
        match self.place(at) {
            None => false,
            Some(place) => place.span.r,
        }
    }

    // An address can be stored to.
    fn storable(&self, at: u32) -> bool
        ensures { result ≡ storable_at self.now at }
    {
        match self.place(at) {
            None => false,
            Some(place) => takes_stores(place.span),
        }
    }

    fn readable_lane(&self, mask: u8, at: u32, j: u32) -> bool
        requires lane { j < 4 }
        requires aligned { at % 4 ≡ 0 }
        ensures { result ≡ lane_passes mask (readable_at self.now) at j }
    {
        !masked(mask, j) || self.readable(at + j)
    }

    fn storable_lane(&self, mask: u8, at: u32, j: u32) -> bool
        requires lane { j < 4 }
        requires aligned { at % 4 ≡ 0 }
        ensures { result ≡ lane_passes mask (storable_at self.now) at j }
    {
        !masked(mask, j) || self.storable(at + j)
    }

    // Each byte of a mask can be loaded, in the word at a multiple of four.
    #[tactic(auto, using(crate::proofs::Found::readable_whole))]
    fn readable_lanes(&self, mask: u8, at: u32) -> bool
        requires { at % 4 ≡ 0 }
        ensures { result ≡ each_lane mask (readable_at self.now) at }
    {
        if let Some(place) = self.place(at) {
            if place.span.r && whole(place.span, at) {
                return true;
            }
        }
        self.readable_lane(mask, at, 0)
            && self.readable_lane(mask, at, 1)
            && self.readable_lane(mask, at, 2)
            && self.readable_lane(mask, at, 3)
    }

    // Each byte of a mask can be stored to, in the word at a multiple of four.
    #[tactic(auto, using(crate::proofs::Found::storable_whole))]
    fn storable_lanes(&self, mask: u8, at: u32) -> bool
        requires { at % 4 ≡ 0 }
        ensures { result ≡ each_lane mask (storable_at self.now) at }
    {
        if let Some(place) = self.place(at) {
            if takes_stores(place.span) && whole(place.span, at) {
                return true;
            }
        }
        self.storable_lane(mask, at, 0)
            && self.storable_lane(mask, at, 1)
            && self.storable_lane(mask, at, 2)
            && self.storable_lane(mask, at, 3)
    }

    #[tactic(auto, unfolding(crate::specs::Access::load_allowed))]
    fn load_allowed(&self, m: LoadOp, at: u32) -> bool
        ensures { result ≡ load_allowed m self.now at }
    {
        let k = at % 4;
        load_aligned(m, k) && self.readable_lanes(load_mask(m, k, self.big()), at - k)
    }

    #[tactic(auto, unfolding(crate::specs::Access::store_allowed))]
    fn store_allowed(&self, m: StoreOp, at: u32) -> bool
        ensures { result ≡ store_allowed m self.now at }
    {
        let k = at % 4;
        is_output(m, at)
            || store_aligned(m, k) && self.storable_lanes(store_mask(m, k, self.big()), at - k)
    }

    /// The trap that a load or store has at an address, a full output aside; None exactly where it has none. Takes no memory.
    #[tactic(auto, unfolding(crate::specs::Access::refuses_of))]
    pub fn refuses(&self, i: Instr, at: u32) -> Option<TrapKind>
        ensures { result ≡ refuses_of self.now i at }
    {
        match i {
            Instr::Load { m, .. } => {
                if self.load_allowed(m, at) {
                    None
                } else {
                    Some(TrapKind::AddressLoad)
                }
            }
            Instr::Store { m, .. } => {
                if self.store_allowed(m, at) {
                    None
                } else {
                    Some(TrapKind::AddressStore)
                }
            }
            _ => None,
        }
    }

    // A byte changes, where its address is declared.
    #[tactic(auto, unfolding(crate::specs::Memory::put_byte))]
    fn put(&mut self, at: u32, byte: u8)
        ensures { self.new ≡ put_byte self.old at byte }
    {
        if let Some(place) = self.place(at) {
            self.bytes[place.index] = byte;
        }
    }

    #[tactic(auto)]
    fn put_lane(&mut self, at: u32, j: u32, mask: u8, word: u32)
        requires lane { j < 4 }
        requires aligned { at % 4 ≡ 0 }
        ensures { self.new ≡ put_lane j at mask word self.old }
    {
        if masked(mask, j) {
            self.put(at + j, ranked_byte(word, j));
        }
    }

    // Of the four bytes from a multiple of four on, those of the mask become those of the word.
    #[tactic(auto, using(crate::proofs::Found::length_kept), unfolding(crate::specs::Memory::put_lanes))]
    pub(crate) fn put_lanes(&mut self, at: u32, mask: u8, word: u32)
        requires { at % 4 ≡ 0 }
        ensures { self.new ≡ put_lanes self.old at mask word }
    {
        if let Some(place) = self.place(at) {
            if whole(place.span, at) {
                set_lanes(&mut self.bytes, place.index, mask, word);
                return;
            }
        }
        self.put_lane(at, 0, mask, word);
        self.put_lane(at, 1, mask, word);
        self.put_lane(at, 2, mask, word);
        self.put_lane(at, 3, mask, word);
    }

    // Puts bytes in at the start of a buffer, and zero in the rest of it.
    pub(crate) fn fill_buffer(&mut self, at: u32, len: u32, input: &[u8])
        requires declared { AllDeclared self.old at len }
        requires fits { length input.now ≤ len }
        ensures { self.new ≡ put_bytes self.old at (input_buffer len input.now) }
    {
        if len == 0 {
            return;
        }
        if let Some(place) = self.place(at) {
            let count = input.len();
            set_run(&mut self.bytes, place.index, input);
            clear_run(&mut self.bytes, place.index + count, len - count as u32);
        }
    }
}
