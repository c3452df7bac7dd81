// All levels in their order (document 01, "Pyramid steps" and "Buffers"): averages upward, coding and rebuilding downward.
ghost use Rattle.std.specs.Prelude.{◌≡◌, suc, ◌+◌, ◌-◌, ◌≤◌, ◌<◌, length};
ghost use Rattle.mathematics.specs.Definitions.Tables.{tabulate};
ghost use Rattle.mathematics.specs.Inner.Splices.{splice};
ghost use Rattle.pyramid.specs.declared.Manner.TheVariants.{OpenLoop};
ghost use Rattle.pyramid.specs.Definitions.Sizes.{columns_at, rows_at, total};
ghost use Rattle.pyramid.specs.Definitions.Pyramid.{average};
ghost use Rattle.pyramid.specs.Definitions.Rebuilding.{rebuilt};
ghost use Rattle.pyramid.specs.Definitions.Manners.{reference, index};
ghost use Rattle.pyramid.specs.Definitions.Buffers.{level_raster, all_levels, start, read_levels};
ghost use Rattle.pyramid.specs.Definitions.Refusals.{values_ok};
ghost use Rattle.pyramid.specs.Inner.Ranges.{CodingRanges, RebuildingRanges};
ghost use Rattle.pyramid.specs.Inner.Layers.{predicted, index_at, kept_at, value_at, LevelSmall, CodeLevel, ValueLevel};

use crate::levels::Level;
use crate::{LawfulSettings, Manner, averaging, copying, expanding, limits};

// Kept: that the buffers hold all levels, in a clause of each function that goes through them and in the words of specs/Inner: a type for a
// lent buffer and its settings would be made for one call in coding and in rebuilding, and taken apart there again.
// The averages of all levels, from the picture at its place: each level is reduced to the one above it, which ends where it starts.
pub fn average_levels(lawful: LawfulSettings, work: &mut [i32])
    requires long { total lawful ≤ length work.old }
    requires coding_ranges { CodingRanges lawful OpenLoop (average lawful (read_levels lawful work.old 0)) }
    ensures { work.new ≡ splice 0 (all_levels lawful (average lawful (read_levels lawful work.old 0))) work.old }
{
    for l in 0..lawful.settings.depth {
        let level = lawful.level(l);
        let (before, here) = work.split_at_mut(level.start());
        let start = level.above().start();
        averaging::reduce_level(level.raster(here), &mut before[start..]);
    }
}

// What row j of a level is predicted to be, from what stands before the level: EXPAND of the level above it, or 0 at the top. A row of sums is
// lent for it.
fn predict_row(level: Level, j: usize, before: &[i32], sums: &mut [i32], row: &mut [i32])
    requires lengths { let s = level.settings in (j < rows_at s level.number) × (start s level.number ≤ length before.now)
        × (length row.old ≡ columns_at s level.number) }
    requires room { 65 ≤ length sums.old }
    requires small { LevelSmall level.settings (suc level.number) 524288 before.now }
    ensures { let s = level.settings in let l = level.number in row.new ≡
        tabulate (columns_at s l) (λ i. predicted s (s.depth - l) l (read_levels s before.now) i j) }
{
    if level.number == level.settings.depth {
        row.fill(0);
    } else {
        let above = level.above();
        let start = above.start();
        expanding::expand_row(above.raster(&before[start..]), j, sums, row);
    }
}

// Kept beside `value_level`: they share the law of what a row is made of (proofs/MadeRows.antt) and no step, for this one writes indices and
// that one reads them, from a buffer that is lent for reading alone.
// Codes a level in a manner: its indices, from its averages, and what the manner keeps in the place of these.
fn code_level(level: Level, manner: Manner, work: &mut [i32], levels: &mut [i16])
    requires { CodeLevel level.settings level.number work.old levels.old }
    ensures levels_after { let s = level.settings in levels.new ≡
        splice (start s level.number) (level_raster s (index_at s (read_levels s work.old)) level.number) levels.old }
    ensures work_after { let s = level.settings in work.new ≡
        splice (start s level.number) (level_raster s (kept_at s manner (read_levels s work.old)) level.number) work.old }
{
    let bin = level.bin();
    let columns = level.columns();
    let mut row: [i32; 129] = [0; 129];
    let row = &mut row[..columns];
    let mut sums: [i32; 65] = [0; 65];
    let from = level.start();
    let (before, here) = work.split_at_mut(from);
    for j in 0..level.rows() {
        predict_row(level, j, before, &mut sums, row);
        let at = j * columns;
        let place = from + at;
        let indices = &mut levels[place..place + columns];
        copying::code_row(manner, &mut here[at..at + columns], row, bin, indices);
    }
}

// Codes all levels in a manner, from the averages: from the top down, since each is predicted from what is kept of the one above it.
pub fn code_levels(lawful: LawfulSettings, manner: Manner, work: &mut [i32], levels: &mut [i16])
    requires lengths { (length levels.old ≡ total lawful) × (total lawful ≤ length work.old) }
    requires coding_ranges { CodingRanges lawful manner (read_levels lawful work.old) }
    ensures levels_after { levels.new ≡ all_levels lawful (index lawful manner (read_levels lawful work.old)) }
    ensures work_after { work.new ≡
        splice 0 (all_levels lawful (reference lawful manner (read_levels lawful work.old))) work.old }
{
    let top = lawful.settings.depth;
    for l in (0..=top).rev() {
        code_level(lawful.level(l), manner, work, levels);
    }
}

// The rebuilt values of a level, from its indices and the rebuilt values of the level above it.
fn value_level(level: Level, levels: &[i16], work: &mut [i32])
    requires { ValueLevel level.settings level.number levels.now work.old }
    ensures { let s = level.settings in work.new ≡
        splice (start s level.number)
        (level_raster s (value_at s (read_levels s levels.now) (read_levels s work.old)) level.number)
        work.old }
{
    let bin = level.bin();
    let columns = level.columns();
    let from = level.start();
    let mut sums: [i32; 65] = [0; 65];
    let (before, here) = work.split_at_mut(from);
    for j in 0..level.rows() {
        let at = j * columns;
        let values = &mut here[at..at + columns];
        predict_row(level, j, before, &mut sums, values);
        let place = from + at;
        copying::value_row(&levels[place..place + columns], bin, values);
    }
}

// The rebuilt values of all levels.
pub fn value_levels(lawful: LawfulSettings, levels: &[i16], work: &mut [i32])
    requires lengths { (length levels.now ≡ total lawful) × (total lawful ≤ length work.old) }
    requires rebuilding_ranges { RebuildingRanges lawful (read_levels lawful levels.now) }
    ensures { work.new ≡ splice 0 (all_levels lawful (rebuilt lawful (read_levels lawful levels.now))) work.old }
{
    for l in (0..=lawful.settings.depth).rev() {
        value_level(lawful.level(l), levels, work);
    }
}

// Every index of every level times its bin lies within 4,096 of 0.
pub fn values_ok(lawful: LawfulSettings, levels: &[i16]) -> bool
    requires { length levels.now ≡ total lawful }
    ensures { result ≡ values_ok lawful levels.now }
{
    let mut left = levels;
    for l in (0..=lawful.settings.depth).rev() {
        let level = lawful.level(l);
        let (here, below) = left.split_at(level.nodes());
        if !limits::indices_ok(here, level.bin()) {
            return false;
        }
        left = below;
    }
    true
}
