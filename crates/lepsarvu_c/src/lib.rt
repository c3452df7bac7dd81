// The functions of the crate lepsarvu as a static library: each export calls the function of its name and has its clauses. include/lepsarvu.h
// declares them.
// Kept: each function is that of `lepsarvu` again, with its clauses, since no crate can stand on a static library, and Rattle callers, test_exports among
// them, need these functions too (docs/DECISIONS.md). Numbers for refusals, and arrays for what C has as structs: the C interface.
#![tactic(auto)]

ghost use Rattle.std.specs.Prelude.{◌≡◌, length};
ghost use Rattle.pyramid.specs.declared.Manner.TheVariants.{OpenLoop};
ghost use Rattle.pyramid.specs.Definitions.Calls.{leaves, coding, rebuilding};
ghost use Rattle.pyramid.specs.Definitions.Answers.{nodes_answer, bounds_answer, deepest_answer};
ghost use Rattle.bale.specs.Definitions.Calls.{size_answer, check_file, read_file};
ghost use Rattle.lepsarvu.specs.Definitions.Exports.{settings_of, settings_array, note_array, coded_refusal, coded_file, coded_size};

pub mod closed;
pub mod pictures;
pub mod pixels;

#[unsafe(no_mangle)]
pub extern "C" fn lepsarvu_coding(
    settings: &[u16; 13],
    picture: &[u8],
    levels: &mut [i16],
    work: &mut [i32],
) -> u16
    ensures value { result ≡
        (coding (settings_of settings.now) OpenLoop picture.now
        levels.old work.old).answer }
    ensures levels_after { levels.new ≡
        (coding (settings_of settings.now) OpenLoop picture.now
        levels.old work.old).levels }
    ensures work_after { work.new ≡
        (coding (settings_of settings.now) OpenLoop picture.now
        levels.old work.old).work }
{
    lepsarvu::lepsarvu_coding(settings, picture, levels, work)
}

#[unsafe(no_mangle)]
pub extern "C" fn lepsarvu_rebuilding(
    settings: &[u16; 13],
    levels: &[i16],
    picture: &mut [u8],
    work: &mut [i32],
) -> u16
    ensures value { result ≡
        (rebuilding (settings_of settings.now) levels.now
        picture.old work.old).answer }
    ensures picture_after { picture.new ≡
        (rebuilding (settings_of settings.now) levels.now
        picture.old work.old).picture }
    ensures work_after { work.new ≡
        (rebuilding (settings_of settings.now) levels.now
        picture.old work.old).work }
{
    lepsarvu::lepsarvu_rebuilding(settings, levels, picture, work)
}

#[unsafe(no_mangle)]
pub extern "C" fn lepsarvu_level_bounds(settings: &[u16; 13], bounds: &mut [u16; 7]) -> u16
    ensures value { result ≡ (bounds_answer (settings_of settings.now) OpenLoop).refusal }
    ensures bounds_after { bounds.new ≡
        leaves result (bounds_answer (settings_of settings.now) OpenLoop).levels
        bounds.old }
{
    lepsarvu::lepsarvu_level_bounds(settings, bounds)
}

#[unsafe(no_mangle)]
pub extern "C" fn lepsarvu_deepest_depth(columns: u16, rows: u16, depth: &mut u16) -> u16
    ensures value { result ≡ (deepest_answer columns rows).refusal }
    ensures depth_after { depth.new ≡ leaves result (deepest_answer columns rows).depth depth.old }
{
    lepsarvu::lepsarvu_deepest_depth(columns, rows, depth)
}

#[unsafe(no_mangle)]
pub extern "C" fn lepsarvu_total_nodes(settings: &[u16; 13], nodes: &mut u16) -> u16
    ensures value { result ≡ (nodes_answer (settings_of settings.now)).refusal }
    ensures nodes_after { nodes.new ≡
        leaves result (nodes_answer (settings_of settings.now)).nodes
        nodes.old }
{
    lepsarvu::lepsarvu_total_nodes(settings, nodes)
}

#[unsafe(no_mangle)]
pub extern "C" fn lepsarvu_file_size(settings: &[u16; 13], size: &mut usize) -> u16
    ensures value { result ≡ (size_answer (settings_of settings.now)).refusal }
    ensures size_after { size.new ≡
        leaves result (size_answer (settings_of settings.now)).size
        size.old }
{
    lepsarvu::lepsarvu_file_size(settings, size)
}

#[unsafe(no_mangle)]
pub extern "C" fn lepsarvu_write_file(
    settings: &[u16; 13],
    note: &[u32; 4],
    levels: &[i16],
    file: &mut [u8],
    size: &mut usize,
) -> u16
    ensures value { result ≡ coded_refusal (settings_of settings.now) note.now levels.now (length file.old) }
    ensures file_after { file.new ≡ coded_file (settings_of settings.now) note.now levels.now file.old }
    ensures size_after { size.new ≡
        coded_size (settings_of settings.now) note.now levels.now (length file.old) size.old }
{
    lepsarvu::lepsarvu_write_file(settings, note, levels, file, size)
}

#[unsafe(no_mangle)]
pub extern "C" fn lepsarvu_read_file(
    file: &[u8],
    levels: &mut [i16],
    settings: &mut [u16; 13],
    note: &mut [u32; 4],
) -> u16
    ensures value { result ≡ (read_file file.now levels.old).answer.refusal }
    ensures levels_after { levels.new ≡ (read_file file.now levels.old).levels }
    ensures settings_after { settings.new ≡
        leaves result (settings_array (read_file file.now levels.old).answer.settings)
        settings.old }
    ensures note_after { note.new ≡
        leaves result (note_array (read_file file.now levels.old).answer.note) note.old }
{
    lepsarvu::lepsarvu_read_file(file, levels, settings, note)
}

#[unsafe(no_mangle)]
pub extern "C" fn lepsarvu_check_file(
    file: &[u8],
    settings: &mut [u16; 13],
    note: &mut [u32; 4],
) -> u16
    ensures value { result ≡ (check_file file.now).refusal }
    ensures settings_after { settings.new ≡
        leaves result (settings_array (check_file file.now).settings) settings.old }
    ensures note_after { note.new ≡
        leaves result (note_array (check_file file.now).note) note.old }
{
    lepsarvu::lepsarvu_check_file(file, settings, note)
}
