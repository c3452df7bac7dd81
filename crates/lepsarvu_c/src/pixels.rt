// One pixel (document 02, P6) as a static library: the export calls the function of its name in `lepsarvu`.
ghost use Rattle.std.specs.Prelude.{◌≡◌};
ghost use Rattle.pyramid.specs.Definitions.Calls.{leaves};
ghost use Rattle.pixel.specs.Definitions.Pixel.{pixel_answer};
ghost use Rattle.lepsarvu.specs.Definitions.Exports.{settings_of};

#[unsafe(no_mangle)]
pub extern "C" fn lepsarvu_rebuild_pixel(
    settings: &[u16; 13],
    levels: &[i16],
    column: u16,
    row: u16,
    pixel: &mut u8,
    read: &mut u16,
) -> u16
    ensures value { result ≡ (pixel_answer (settings_of settings.now) column row levels.now).refusal }
    ensures pixel_after { pixel.new ≡
        leaves result (pixel_answer (settings_of settings.now) column row levels.now).pixel pixel.old }
    ensures read_after { read.new ≡
        leaves result (pixel_answer (settings_of settings.now) column row levels.now).read read.old }
{
    lepsarvu::pixels::lepsarvu_rebuild_pixel(settings, levels, column, row, pixel, read)
}
