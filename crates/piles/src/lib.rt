// What is proved of every carrier holds of every pile: a carrier under any number of layers.
#![tactic(auto)]

ghost use Rattle.std.specs.Prelude.{◌≡◌, pos, IfOk, slice_index_or};
ghost use Rattle.refusal.specs.Answers.{answer};
ghost use Rattle.carrier.specs.Meaning.{Moves, Puts, accepting, put_answer, put_codes};
ghost use Rattle.carrier.specs.Plain.{plain_codes, plain_rest, plain_sites};
ghost use Rattle.layer.specs.Over.{raised};
ghost use Rattle.layer.specs.Window.{windowed, window_rest};
ghost use Rattle.piles.specs.Pile.{pile_codes, pile_picture, pile_sites};

use carrier::{Carrier, CarrierMut, Plain};
use corner::Corner;
use layer::{Turn, Window};
use refusal::Refusal;

// Puts `v` at place `i` of any carrier, and answers the code that was there.
pub fn exchange<C: CarrierMut>(c: &mut C, i: usize, v: i32) -> Result<i32, Refusal>
    ensures says { accepting (answer result) ≡ put_answer (C.Carrier.level (C.Carrier.rest c.old)) (C.Carrier.sites (C.Carrier.rest c.old)) (C.Carrier.codes c.old) i v }
    ensures before { IfOk result (λ old. old ≡ slice_index_or (C.Carrier.codes c.old) i (pos 0)) }
    ensures codes { C.Carrier.codes c.new ≡ put_codes (C.Carrier.sites (C.Carrier.rest c.old)) (C.Carrier.codes c.old) i v }
    ensures moves { Moves (C.Carrier.sites (C.Carrier.rest c.old)) i (C.Carrier.codes c.old) (C.Carrier.codes c.new) (C.Carrier.picture c.old) (C.Carrier.picture c.new) }
    ensures rest { C.Carrier.rest c.new ≡ C.Carrier.rest c.old }
    ensures lent { C.CarrierMut.lent c.new ≡ C.CarrierMut.lent c.old }
{
    let at = (*c).place(i)?;
    (*c).put(i, v)?;
    Ok(at.code)
}

// The same on one pile: a window of a turn of a window of a corner carrier. It stands beside the generic call because
// its clauses say in the terms of that pile what the generic ones come to.
pub fn exchange_in_pile(
    pile: &mut Window<Turn<Window<Corner<&mut [u8], u8>>>>,
    i: usize,
    v: i32,
) -> Result<i32, Refusal>
    ensures says { accepting (answer result) ≡ put_answer 3 (pile_sites pile.old) (pile_codes pile.old) i v }
    ensures before { IfOk result (λ old. old ≡ slice_index_or (pile_codes pile.old) i (pos 0)) }
    ensures codes { pile_codes pile.new ≡ put_codes (pile_sites pile.old) (pile_codes pile.old) i v }
    ensures sites { pile_sites pile.new ≡ pile_sites pile.old }
    ensures moves { Moves (pile_sites pile.old) i (pile_codes pile.old) (pile_codes pile.new) (pile_picture pile.old) (pile_picture pile.new) }
{
    exchange(pile, i, v)
}

// Puts `v` at place `i` of a window over any carrier, which is only lent: the window is gone afterwards.
pub fn put_in_window<C: CarrierMut>(
    c: &mut C,
    start: usize,
    shown: usize,
    i: usize,
    v: i32,
) -> Result<(), Refusal>
    ensures puts { Puts (raised (C.Carrier.level (C.Carrier.rest c.old))) (windowed start shown (C.Carrier.sites (C.Carrier.rest c.old))) i v (windowed start shown (C.Carrier.codes c.old)) (windowed start shown (C.Carrier.codes c.new)) (C.Carrier.picture c.old) (C.Carrier.picture c.new) result }
    ensures rest { window_rest C.Carrier.sites (C.Carrier.rest c.new) start shown (C.Carrier.codes c.new) (C.Carrier.picture c.new) ≡ window_rest C.Carrier.sites (C.Carrier.rest c.old) start shown (C.Carrier.codes c.old) (C.Carrier.picture c.old) }
    ensures lent { C.CarrierMut.lent c.new ≡ C.CarrierMut.lent c.old }
{
    let mut window = Window::over(c, start, shown);
    window.put(i, v)
}

// The same over the plain carrier of a picture: it says what the picture holds in the end, as the generic call can't.
pub fn put_in_picture(
    picture: &mut [u8],
    maximum: u8,
    start: usize,
    shown: usize,
    i: usize,
    v: i32,
) -> Result<(), Refusal>
    ensures { Puts 1 (windowed start shown (plain_sites (plain_rest maximum picture.old))) i v (windowed start shown (plain_codes picture.old)) (windowed start shown (plain_codes picture.new)) picture.old picture.new result }
{
    let mut plain = Plain::fitting(picture, maximum);
    put_in_window(&mut plain, start, shown, i, v)
}

#[cfg(test)]
mod tests;
