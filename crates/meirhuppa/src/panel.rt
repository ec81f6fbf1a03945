// The panel check of document 02, T-01: a tree image alone, with neither phase nor budget nor table.
ghost use Rattle.requests.specs.Panel.{panel_job};
ghost use Rattle.meirhuppa.specs.Panels.{PanelAnswered};

use crate::answers::Answer;

// The names of a program's bits in order of address, into `bits`. The length counts bytes, four for each.
pub fn meirhuppa_panel(image: &[u8], bits: &mut [u32]) -> Answer
    ensures { PanelAnswered (panel_job image.now bits.old) result bits.new }
{
    match panel_check::list_bits(image, bits) {
        Ok(count) => Answer::written(4 * count, 0),
        Err(f) => Answer::refused(f.code(), 0),
    }
}
