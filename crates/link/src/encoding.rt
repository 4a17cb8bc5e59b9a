// Encoding a frame as a row.
ghost use Rattle.std.specs.Prelude.{◌≡◌, length};
ghost use Rattle.settings.specs.Lengths.{row_length};
ghost use Rattle.link.specs.Frames.{EncodedFrame, frame_length};

use code::Code;
use settings::Settings;

// Kept: here and in `mending` the code and the settings come beside each other. With the code in it, a `Line` would have a part
// that its other calls do not use; a struct of both would hold the settings twice, or be made anew for each call and borrow both.

// The octets of a frame: the information of the words of a row.
pub(crate) fn frame_length<C: Code>(code: &C, settings: &Settings) -> usize
    ensures { result ≡ frame_length settings.now.depth (C.Code.meaning code.now) }
{
    code.information() * settings.depth()
}

// Puts the frame to the front of the row and makes each word of the row a codeword.
pub(crate) fn encode_frame<C: Code>(code: &C, settings: &Settings, row: &mut [u8], frame: &[u8])
    requires row_size { length row.old ≡ row_length settings.now }
    requires frame_size { length frame.now ≡ frame_length settings.now.depth (C.Code.meaning code.now) }
    ensures { EncodedFrame settings.now.depth (C.Code.meaning code.now) frame.now row.new }
{
    row[..frame.len()].copy_from_slice(frame);
    let depth = settings.depth();
    for word in 0..depth {
        code.encode(row, depth, word).unwrap();
    }
}
