// What holds of every history of the ends.
ghost use Rattle.std.specs.Prelude.{◌≡◌, ◌<◌, true};
ghost use Rattle.link.specs.Frames.{OneRow};
ghost use Rattle.link.specs.Refusal.{mapping_fits};
ghost use Rattle.link.specs.SenderLaws.{SenderLaws};

use code::Code;
use mapping::Mapping;
use settings::Settings;

// Over every sequence of puts and draws on any memory, refused calls included, each call is refused just where the
// table says, and the octets drawn are a beginning of the line of the frames put: for every code, and for every mapping
// that is made for the settings, as that of each sender is.
pub fn sender_laws_stand<C: Code, M: Mapping>(settings: &Settings, code: &C, mapping: &M)
    ensures { mapping_fits settings.now (M.Mapping.meaning mapping.now) ≡ true → SenderLaws settings.now (C.Code.meaning code.now) (M.Mapping.meaning mapping.now) }
{}

// Whatever the code, a frame is encoded as just one row, at each depth.
pub fn one_row_stands<C: Code>(code: &C, depth: usize)
    ensures { 0 < depth → OneRow depth (C.Code.meaning code.now) }
{}
