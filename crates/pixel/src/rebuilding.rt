// The values of the windows of a pixel, from the top down (document 02, P6).
ghost use Rattle.std.specs.Prelude.{◌≡◌, List, suc, ◌+◌, ◌-◌, ◌≤◌, ◌<◌, ℕ, ℤ, pos, ◌+ℤ◌, length, Some, None};
ghost use Rattle.pyramid.specs.Inner.Rows.{Within, Small};
ghost use Rattle.pyramid.specs.Definitions.Sizes.{total};
ghost use Rattle.pyramid.specs.Definitions.Buffers.{read_levels};
ghost use Rattle.pyramid.specs.Definitions.Rebuilding.{value_of, rebuilt, clamp};
ghost use Rattle.pixel.specs.declared.windows.Upper.{Upper};
ghost use Rattle.pixel.specs.declared.RebuiltPixel.{RebuiltPixel};
ghost use Rattle.pixel.specs.Definitions.Windows.{nodes_read};
ghost use Rattle.pixel.specs.Inner.Axes.{AxesOf};
ghost use Rattle.pixel.specs.Inner.Reading.{LawfulFrom, Above, Predicted, PixelPredicted};

use crate::axes::{Axis, Step};
use crate::reading::{Block, Window};
use crate::sums::Weights;
use crate::windows::{Asked, Upper};
use crate::{RebuiltPixel, reading, sums};
use pyramid::LawfulSettings;

impl Asked {
    pub fn new(lawful: LawfulSettings, column: u16, row: u16) -> Asked
        requires { (column < lawful.columns) × (row < lawful.rows) }
        ensures { (result.settings ≡ lawful) × (result.column ≡ column) × (result.row ≡ row) }
    {
        Asked {
            settings: lawful.settings,
            column,
            row,
        }
    }

    fn weights(self) -> Weights
        ensures { result.kernel ≡ self.settings.kernel }
    {
        let settings = self.settings;
        Weights::new(LawfulSettings { settings })
    }

    // What is predicted for the window of a level below the top.
    fn predict(self, level: u16, upper: Upper) -> [i32; 16]
        requires deep { level < self.settings.depth }
        requires axes { AxesOf self.settings self.column self.row (suc level) upper.columns upper.rows }
        requires small { Small 524288 upper.block.values }
        ensures { (levels : List ℤ) → Above self.settings self.column self.row levels level upper.block.read upper.place upper.block.values
            → Predicted self.settings self.column self.row levels level result }
    {
        let columns = Step::new(self.column, level, upper.columns);
        let rows = Step::new(self.row, level, upper.rows);
        sums::expand(columns, rows, self.weights(), &upper.block.values)
    }

    // The first place of it alone, for the pixel.
    fn predict_pixel(self, upper: Upper) -> i32
        requires axes { 1 ≤ self.settings.depth → AxesOf self.settings self.column self.row 1 upper.columns upper.rows }
        requires small { 1 ≤ self.settings.depth → Small 524288 upper.block.values }
        ensures { (levels : List ℤ) → Above self.settings self.column self.row levels 0 upper.block.read upper.place upper.block.values
            → PixelPredicted self.settings self.column self.row levels result }
    {
        if self.settings.depth == 0 {
            return 0;
        }
        let columns = Step::new(self.column, 0, upper.columns);
        let rows = Step::new(self.row, 0, upper.rows);
        sums::expand_first(columns, rows, self.weights(), &upper.block.values)
    }

    // Reads the window of a level above the pixel's, with what is predicted for it; nothing where an index in it times its bin is outside ±4,096.
    #[inline(always)]
    fn read_level(
        self,
        level: u16,
        levels: &[i16],
        upper: Upper,
        predicted: [i32; 16],
    ) -> Option<Upper>
        requires deep { (1 ≤ level) × (level ≤ self.settings.depth) }
        requires long { length levels.now ≡ total self.settings }
        requires above { Above self.settings self.column self.row levels.now level upper.block.read upper.place upper.block.values }
        requires prediction { Predicted self.settings self.column self.row levels.now level predicted }
        ensures read { (lower : Upper) → result ≡ Some lower
            → Above self.settings self.column self.row levels.now (level - 1) lower.block.read lower.place lower.block.values }
        ensures axes { (lower : Upper) → result ≡ Some lower → AxesOf self.settings self.column self.row level lower.columns lower.rows }
        ensures refused { result ≡ None → LawfulFrom self.settings self.column self.row levels.now level → ⊥ }
    {
        let s = self.settings;
        let columns = Axis::new(s.columns, self.column, level);
        let rows = Axis::new(s.rows, self.row, level);
        let place = upper.place + (rows.z + 1) * (columns.z + 1);
        let window = Window { columns, rows };
        let own = window.read(&levels[upper.place..place], s.bins[usize::from(level)]);
        if !reading::values_ok(&own.values) {
            return None;
        }
        let mut values = predicted;
        reading::add(&own.values, &mut values);
        let read = upper.block.read + own.read;
        Some(Upper {
            block: Block { values, read },
            columns,
            rows,
            place,
        })
    }

    // The same of a level below the top, from the block above.
    #[inline(always)]
    fn read_below(self, level: u16, levels: &[i16], upper: Upper) -> Option<Upper>
        requires deep { (1 ≤ level) × (level < self.settings.depth) }
        requires axes { AxesOf self.settings self.column self.row (suc level) upper.columns upper.rows }
        requires long { length levels.now ≡ total self.settings }
        requires above { Above self.settings self.column self.row levels.now level upper.block.read upper.place upper.block.values }
        ensures read { (lower : Upper) → result ≡ Some lower
            → Above self.settings self.column self.row levels.now (level - 1) lower.block.read lower.place lower.block.values }
        ensures axes { (lower : Upper) → result ≡ Some lower → AxesOf self.settings self.column self.row level lower.columns lower.rows }
        ensures refused { result ≡ None → LawfulFrom self.settings self.column self.row levels.now level → ⊥ }
    {
        let predicted = self.predict(level, upper);
        self.read_level(level, levels, upper, predicted)
    }

    // Reads the windows of all levels above the pixel's, from the top down. For the top nothing is predicted.
    fn read_above(self, levels: &[i16]) -> Option<Upper>
        requires { length levels.now ≡ total self.settings }
        ensures read { (upper : Upper) → result ≡ Some upper
            → Above self.settings self.column self.row levels.now 0 upper.block.read upper.place upper.block.values }
        ensures axes { (upper : Upper) → result ≡ Some upper → 1 ≤ self.settings.depth
            → AxesOf self.settings self.column self.row 1 upper.columns upper.rows }
        ensures refused { result ≡ None → LawfulFrom self.settings self.column self.row levels.now 1 → ⊥ }
    {
        let top = self.settings.depth;
        let values = [0; 16];
        let block = Block { values, read: 0 };
        let axis = Axis {
            next: 0,
            end: 0,
            z: 0,
        };
        let none = Upper {
            block,
            columns: axis,
            rows: axis,
            place: 0,
        };
        if top == 0 {
            return Some(none);
        }
        let mut upper = self.read_level(top, levels, none, values)?;
        for n in 1..top {
            match self.read_below(top - n, levels, upper) {
                Some(lower) => upper = lower,
                None => return None,
            }
        }
        Some(upper)
    }

    // Rebuilds the pixel; nothing where an index in a window times its bin is outside ±4,096.
    pub fn rebuild(self, levels: &[i16]) -> Option<RebuiltPixel>
        requires { length levels.now ≡ total self.settings }
        ensures read { (p : RebuiltPixel) → result ≡ Some p → LawfulFrom self.settings self.column self.row levels.now 0
            × (p.pixel ≡ clamp self.settings (rebuilt self.settings (read_levels self.settings levels.now) 0 self.column self.row))
            × (p.read ≡ nodes_read self.settings self.column self.row self.settings.depth) }
        ensures refused { result ≡ None → LawfulFrom self.settings self.column self.row levels.now 0 → ⊥ }
    {
        let upper = self.read_above(levels)?;
        let settings = self.settings;
        let at = upper.place
            + usize::from(self.row) * usize::from(settings.columns)
            + usize::from(self.column);
        let value = i32::from(levels[at]) * i32::from(settings.bins[0]);
        if 4096 < value.unsigned_abs() {
            return None;
        }
        let lawful = LawfulSettings { settings };
        Some(RebuiltPixel {
            pixel: lawful.clamp(value + self.predict_pixel(upper)),
            read: upper.block.read + 1,
        })
    }
}
