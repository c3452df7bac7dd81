// A level that lawful settings have: its size, its place in the buffers and its bin (document 01, "Settings" and "Buffers").
ghost use Rattle.std.specs.Prelude.{◌≡◌, suc, ◌≤◌, ◌<◌, length, take};
ghost use Rattle.pyramid.specs.Inner.Lawful.{Lawful};
ghost use Rattle.pyramid.specs.Definitions.Settings.{bin};
ghost use Rattle.pyramid.specs.Definitions.Sizes.{columns_at, rows_at, nodes_at};
ghost use Rattle.pyramid.specs.Definitions.Buffers.{start};

use crate::rasters::Raster;
use crate::taps::Weights;
use crate::{LawfulSettings, Settings, Shape};

// A level of these settings, by its number, and where it starts in a buffer of all levels.
// Kept: a number, which is a level's name in the papers and counts from 0 to the depth; no enum has a case for each.
#[derive(Clone, Copy)]
pub struct Level {
    pub settings: Settings,
    pub number: u16,
    place: usize,
    ghost lawful: { Lawful settings },
    ghost within: { number ≤ settings.depth },
    ghost placed: { (place ≡ start settings number) × (place ≤ 22359) },
}

impl LawfulSettings {
    // A level that these settings have.
    pub(crate) fn level(self, number: u16) -> Level
        requires { number ≤ self.depth }
        ensures { (result.settings ≡ self) × (result.number ≡ number) }
    {
        let settings = self.settings;
        let place = self.shape().start_of(number);
        Level {
            settings,
            number,
            place,
        }
    }
}

impl Level {
    // Kept beside that of all settings: a level holds bare settings, since a struct that holds one with a model is not copied where it is
    // passed on.
    fn shape(self) -> Shape
        ensures { result.settings ≡ self.settings }
    {
        let settings = self.settings;
        Shape { settings }
    }

    // The level above it, which ends where it starts.
    pub fn above(self) -> Level
        requires { self.number < self.settings.depth }
        ensures { (result.settings ≡ self.settings) × (result.number ≡ suc self.number) }
    {
        let settings = self.settings;
        let number = self.number + 1;
        let shape = self.shape();
        let place = self.place - shape.nodes_at(number);
        Level {
            settings,
            number,
            place,
        }
    }

    // Kept, with `rows` and `nodes`: three names of the papers, each the shape's for this level.
    pub fn columns(self) -> usize
        ensures { (result ≡ columns_at self.settings self.number) × (result ≤ 129) }
    {
        self.shape().columns_at(self.number)
    }

    pub fn rows(self) -> usize
        ensures { (result ≡ rows_at self.settings self.number) × (result ≤ 129) }
    {
        self.shape().rows_at(self.number)
    }

    pub fn nodes(self) -> usize
        ensures { (result ≡ nodes_at self.settings self.number) × (result ≤ 16641) }
    {
        self.shape().nodes_at(self.number)
    }

    pub fn start(self) -> usize
        ensures { (result ≡ start self.settings self.number) × (result ≤ 22359) }
    {
        self.place
    }

    // Its values, which some values begin with.
    pub fn raster<'a>(self, values: &'a [i32]) -> Raster<'a>
        requires { nodes_at self.settings self.number ≤ length values.now }
        ensures size { (result.columns ≡ columns_at self.settings self.number) × (result.rows ≡ rows_at self.settings self.number) }
        ensures values { result.values.now ≡ take (nodes_at self.settings self.number) values.now }
        ensures weights { result.weights.kernel ≡ self.settings.kernel }
    {
        let columns = self.columns();
        let rows = self.rows();
        Raster {
            values: &values[..rows * columns],
            columns,
            rows,
            weights: Weights::new(self.settings.kernel),
        }
    }

    // The bin of its indices.
    pub fn bin(self) -> u16
        ensures { result ≡ bin self.settings self.number }
    {
        let bins = self.settings.bins;
        bins[usize::from(self.number)]
    }
}
