ghost use Rattle.std.specs.Prelude.{◌≡◌, ◌<◌, length, slice_get, Some};
ghost use Rattle.board_parts.specs.Lookup.{pins_of};

use crate::boards::Board;
use crate::parts::Pin;
use geo_rect::NetId;

impl Board {
    /// The number of pins of a net.
    pub fn pin_count(&self, n: NetId) -> u32
        ensures { result ≡ length (pins_of self.now.parts n) }
    {
        let mut count = 0;
        for pin in self.parts.pins.as_slice() {
            if pin.net.0 == n.0 {
                count += 1;
            }
        }
        count
    }

    /// The pin of a net with this number, from 0 in the order of the text.
    pub fn nth_pin(&self, n: NetId, i: u32) -> &Pin
        requires { i < length (pins_of self.now.parts n) }
        ensures { slice_get (pins_of self.now.parts n) i ≡ Some result.now }
    {
        let mut before = 0;
        for pin in self.parts.pins.as_slice() {
            if pin.net.0 == n.0 {
                if before == i {
                    return pin;
                }
                before += 1;
            }
        }
        unreachable!()
    }
}
