ghost use Rattle.std.specs.Prelude.{◌≡◌, ◌<◌, ◌≤◌, ◌*◌, ◌/◌};
ghost use Rattle.lang_base.specs.Parts.{part_of, FirstBeginsAtZero, NextBeginsAtEnd, LastEndsAtLength, PartsHaveNoCommonPlace};

use crate::array_part::Part;

/// Part `k`, from 0, of `parts` parts of the places below `len`. Their lengths differ by at most 1.
pub fn part(len: u32, parts: u32, k: u32) -> Part
    requires in_parts { k < parts }
    requires len_fits { len < 2147483648 }
    requires parts_fits { parts < 2147483648 }
    ensures { result ≡ part_of len parts k }
{
    let from = beginning(len, parts, k);
    let end = beginning(len, parts, k + 1);
    Part {
        from,
        len: end - from,
    }
}

/// Where part `k` begins, and for all parts together the length.
fn beginning(len: u32, parts: u32, k: u32) -> u32
    requires some { 0 < parts }
    requires in_parts { k ≤ parts }
    ensures { result ≡ k * len / parts }
{
    (u64::from(k) * u64::from(len) / u64::from(parts)) as u32
}

/// The parts follow each other, cover the length, and no two of them have a place in common.
pub fn law_parts()
    ensures first { FirstBeginsAtZero }
    ensures next { NextBeginsAtEnd }
    ensures last { LastEndsAtLength }
    ensures apart { PartsHaveNoCommonPlace }
{}
