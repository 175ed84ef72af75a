// The map of a small volume, through all its calls.
ghost use Rattle.std.specs.Prelude.{◌≡◌, ◌≤◌, length, vec_capacity, vec_len};

use crate::texts::number_at;
use cms_cases::{Report, word};
use cms_map::Map;
use std::alloc::Global;
use std::process::Abort;

/// `used/BLOCK`: whether the block is used in a map of 9. `taken`: how many of them are free, whether two are taken, how many are free
/// then, whether one more is taken, and those that were.
/// `released`: how many of ten are free where blocks 6 and 10 are released, and whether blocks 6 and 7 are used.
/// `again`: blocks 6 to 8 are taken, 6 is released, and two more are taken.
/// `touched/BLOCK`: the data blocks of 512 bytes that this block, block 1 and this block again touch in a map of 8,192, behind a 9.
/// `bytes/BYTES/BLOCKS/FROM/GIVEN`: whether a map of so many blocks that is made of three bytes gives these three from a place on.
pub const ROWS: &str = "\
used/1 => true
used/2 => true
used/3 => true
used/4 => true
used/5 => true
used/6 => true
used/7 => false
used/8 => false
used/9 => true
taken => (2, true, 0, false, [7, 8])
released => (2, false, true)
again => [6, 7, 8, 6, 9]
touched/1 => [9, 0]
touched/4096 => [9, 0]
touched/4097 => [9, 0, 1]
touched/8192 => [9, 0, 1]
bytes/FC8000/9/0/FC8000 => true
bytes/00FFFF/12/0/F8F000 => true
bytes/00FFFF/24/1/FFFF00 => true
bytes/FFFFFF/3/0/E00000 => true
bytes/FFFFFF/24/4294967295/000000 => true";

// The map of 9 blocks.
fn nine<R: Abort>(rt: &R, alloc: Global) -> Map
    ensures { length result ≡ 9 }
{
    Map::of_bytes(alloc, &[0xFC, 0x80], 9).expect(rt, "memory")
}

fn tell_used(into: &mut Report, map: &Map, block: u32)
    requires { length map.now ≡ 9 }
{
    into.value(&(block >= 1 && block <= 9 && map.is_used(block)))
}

// Room for so many blocks.
fn room<R: Abort>(rt: &R, alloc: Global, count: usize) -> Vec<u32>
    ensures none { vec_len result ≡ 0 }
    ensures room { count ≤ vec_capacity result }
{
    Vec::with_capacity(alloc, count).expect(rt, "memory")
}

fn take(into: &mut Report, map: &mut Map, blocks: &mut Vec<u32>)
    requires none { vec_len blocks.old ≡ 0 }
    requires room { 3 ≤ vec_capacity blocks.old }
{
    let free = map.free_count();
    let two = map.take_lowest(2, blocks);
    let left = map.free_count();
    let third = map.take_lowest(1, blocks);
    into.value(&(free, two, left, third, blocks.as_slice()))
}

fn tell_taken<R: Abort>(into: &mut Report, rt: &R, alloc: Global) {
    let mut blocks = room(rt, alloc, 3);
    take(into, &mut nine(rt, alloc), &mut blocks)
}

fn release(into: &mut Report, map: &mut Map)
    requires { length map.old ≡ 10 }
{
    map.release(10);
    map.release(6);
    map.release(10);
    into.value(&(map.free_count(), map.is_used(6), map.is_used(7)))
}

fn tell_released<R: Abort>(into: &mut Report, rt: &R, alloc: Global) {
    let mut map = Map::of_bytes(alloc, &[0xFF, 0xC0], 10).expect(rt, "memory");
    release(into, &mut map)
}

fn take_again(into: &mut Report, map: &mut Map, blocks: &mut Vec<u32>)
    requires blocks { length map.old ≡ 24 }
    requires none { vec_len blocks.old ≡ 0 }
    requires room { 5 ≤ vec_capacity blocks.old }
{
    let _three = map.take_lowest(3, blocks);
    map.release(6);
    let _two = map.take_lowest(2, blocks);
    into.value(&blocks.as_slice())
}

fn tell_again<R: Abort>(into: &mut Report, rt: &R, alloc: Global) {
    let mut map = Map::of_bytes(alloc, &[0, 0, 0], 24).expect(rt, "memory");
    take_again(into, &mut map, &mut room(rt, alloc, 5))
}

// The data blocks that a block, block 1 and it again touch.
fn touch(into: &mut Report, map: &Map, touched: &mut Vec<u32>, block: u32)
    requires blocks { length map.now ≡ 8192 }
    requires one { vec_len touched.old ≡ 1 }
    requires room { 3 ≤ vec_capacity touched.old }
{
    if block >= 1 && block <= 8192 {
        map.touched(&[block, 1, block], 512, touched);
    }
    into.value(&touched.as_slice())
}

fn tell_touched<R: Abort>(into: &mut Report, rt: &R, alloc: Global, block: u32) {
    let map = Map::of_bytes(alloc, &[0; 1024], 8192).expect(rt, "memory");
    let mut touched = room(rt, alloc, 3);
    touched.push(9).expect(rt, "memory");
    touch(into, &map, &mut touched, block)
}

// The three bytes that six hexadecimal digits say.
fn three<R: Abort>(rt: &R, digits: &str) -> [u8; 3] {
    let number = u32::from_str_radix(digits, 16).expect(rt, "six digits");
    let [_, first, second, third] = number.to_be_bytes();
    [first, second, third]
}

// Whether three bytes are what a map gives from a place on.
fn tell_bytes(into: &mut Report, map: &Map, from: u32, wanted: [u8; 3]) {
    let mut given = [7; 3];
    map.put_bytes(from, &mut given);
    into.value(&(given == wanted))
}

fn tell_given<R: Abort>(into: &mut Report, rt: &R, alloc: Global, case: &str) {
    let blocks = number_at(case, 2).min(24);
    let map = Map::of_bytes(alloc, &three(rt, word(case, 1)), blocks).expect(rt, "memory");
    let copy = map.clone().expect(rt, "memory");
    tell_bytes(into, &copy, number_at(case, 3), three(rt, word(case, 4)))
}

// Tells what comes of blocks that are taken and released.
fn tell_changed<R: Abort>(into: &mut Report, rt: &R, alloc: Global, what: &str) {
    match what {
        "taken" => tell_taken(into, rt, alloc),
        "released" => tell_released(into, rt, alloc),
        _ => tell_again(into, rt, alloc),
    }
}

/// Tells what a case comes to.
pub fn tell<R: Abort>(into: &mut Report, rt: &R, alloc: Global, case: &str) {
    match word(case, 0) {
        "used" => tell_used(into, &nine(rt, alloc), number_at(case, 1)),
        "touched" => tell_touched(into, rt, alloc, number_at(case, 1)),
        "bytes" => tell_given(into, rt, alloc, case),
        what => tell_changed(into, rt, alloc, what),
    }
}
