// Settings that are known to be lawful: a type for the shape, that is all but the bins, and one for all settings.
ghost use Rattle.std.specs.Prelude.{◌≡◌, [], ◌∷◌, cond, leb, eqb, length};
ghost use Rattle.refusals.specs.Definitions.Outcomes.{outcome};
ghost use Rattle.pyramid.specs.Definitions.Settings.{bins_ok};
ghost use Rattle.pyramid.specs.Definitions.Refusals.{unless, first, shape_refusal, settings_refusal, values_ok};
ghost use Rattle.pyramid.specs.Definitions.Sizes.{nodes_at, total};
ghost use Rattle.pyramid.specs.Definitions.Answers.{size_of, level_size_answer};

use crate::{Dimensions, Settings, checking, layering};
use refusals::Refusal;
use std::marker::Model;

// Settings whose shape is lawful.
// Kept: a ghost field and no model, since contracts read the fields; a model was tried, and `?` then passed on no file, which holds a borrow
// beside its shape.
#[derive(Clone, Copy)]
pub struct Shape {
    pub settings: Settings,
    pub ghost shaped: { shape_refusal settings ≡ 0 },
}

impl Shape {
    ghost use Rattle.pyramid.specs.Definitions.Shapes.{shape_settings};

    // The settings, or the first rule that the shape breaks. The bins are not looked at.
    pub fn new(s: Settings) -> Result<Shape, Refusal>
        ensures { shape_settings result ≡ outcome (shape_refusal s) s }
    {
        checking::check_shape(s)?;
        Ok(Shape { settings: s })
    }

    // T, the number of nodes of all levels.
    pub fn nodes(self) -> u16
        ensures { result ≡ total self.settings }
    {
        self.total() as u16
    }

    // The settings, where the bins are lawful too. Refused: 3.
    pub fn lawful(self) -> Result<LawfulSettings, Refusal>
        ensures { result ≡ outcome (unless (bins_ok self.settings) 3) self.settings }
    {
        if !checking::bins_ok(self.settings) {
            return Err(Refusal::Bin);
        }
        Ok(LawfulSettings {
            settings: self.settings,
        })
    }

    // Kept, and `level_nodes`: 0 above the depth and no `None`, which is what these public functions have promised.
    // The columns and rows of a level; 0 by 0 for a level above the depth.
    pub fn level_size(self, level: u16) -> Dimensions
        ensures { result ≡ size_of (level_size_answer self.settings level) }
    {
        if self.settings.depth < level {
            return Dimensions {
                columns: 0,
                rows: 0,
            };
        }
        Dimensions {
            columns: self.columns_at(level) as u16,
            rows: self.rows_at(level) as u16,
        }
    }

    // The number of nodes of a level; 0 for a level above the depth.
    pub fn level_nodes(self, level: u16) -> u16
        ensures { result ≡ cond (leb level self.settings.depth) (nodes_at self.settings level) 0 }
    {
        if level <= self.settings.depth {
            self.nodes_at(level) as u16
        } else {
            0
        }
    }
}

// Lawful settings: a lawful shape with lawful bins. Contracts see the settings.
#[derive(Clone, Copy)]
pub struct LawfulSettings {
    pub settings: Settings,
}

impl Model for LawfulSettings {
    ghost use Rattle.std.specs.Prelude.{◌≡◌};
    ghost use Rattle.pyramid.specs.declared.Settings.{Settings};
    ghost use Rattle.pyramid.specs.Definitions.Refusals.{settings_refusal};

    ghost Value = { Settings };

    ghost view = { λ a. a.settings };

    ghost invariant = { λ a. settings_refusal a.settings ≡ 0 };

    ghost inverse = { λ s. record { settings = s } };
}

impl LawfulSettings {
    // The settings, or the first rule that they break.
    pub fn new(s: Settings) -> Result<LawfulSettings, Refusal>
        ensures { result ≡ outcome (settings_refusal s) s }
    {
        let shape = Shape::new(s)?;
        shape.lawful()
    }

    // The shape of the settings.
    pub fn shape(self) -> Shape
        ensures { result.settings ≡ self }
    {
        let settings = self.settings;
        Shape { settings }
    }

    // Whether rebuilding can take a level buffer. Refused: 6, 11.
    pub fn check_levels(self, levels: &[i16]) -> Result<(), Refusal>
        ensures { result ≡ outcome (first (unless (eqb (length levels.now) (total self)) 6
            ∷ unless (values_ok self levels.now) 11 ∷ [])) tt }
    {
        if levels.len() != self.shape().total() {
            Err(Refusal::LevelsLength)
        } else if layering::values_ok(self, levels) {
            Ok(())
        } else {
            Err(Refusal::Index)
        }
    }
}
