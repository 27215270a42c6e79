// The moves are made, one after another, and compared with what the parallel assignment says.

ghost use Rattle.std.specs.Prelude.{◌≡◌, ◌≢◌, ◌<◌, ◌⊎◌, All, AllPairs};

use super::{Loc, MoveList, order_moves};
use arrayvec::ArrayVec;

const SCRATCH: Loc = Loc::Reg(15);

#[derive(Clone, Copy, Debug, PartialEq, Eq)]
struct Contents {
    registers: [u32; 16],
    slots: [u32; 16],
}

impl Contents {
    // Each location holds a number of its own.
    fn numbered() -> Self {
        let mut contents = Contents {
            registers: [0; 16],
            slots: [0; 16],
        };
        for number in 0u16..16 {
            contents.set(Loc::Reg(number as u8), number as u32);
            contents.set(Loc::Slot(number), 100 + number as u32);
        }
        contents
    }

    fn get(&self, loc: Loc) -> u32 {
        match loc {
            Loc::Reg(number) => self.registers[number as usize % 16],
            Loc::Slot(number) => self.slots[number as usize % 16],
        }
    }

    fn set(&mut self, loc: Loc, value: u32) {
        match loc {
            Loc::Reg(number) => self.registers[number as usize % 16] = value,
            Loc::Slot(number) => self.slots[number as usize % 16] = value,
        }
    }
}

// Each target with what its source held at first.
fn assigned(before: &Contents, moves: &[(Loc, Loc)]) -> Contents {
    let mut after = *before;
    for (target, source) in moves {
        after.set(*target, before.get(*source));
    }
    after
}

// One move after another; the scratch, which may hold anything, is put back.
fn moved(before: &Contents, moves: &[(Loc, Loc)]) -> Contents {
    let mut after = *before;
    for (target, source) in moves {
        let value = after.get(*source);
        after.set(*target, value);
    }
    after.set(SCRATCH, before.get(SCRATCH));
    after
}

// A linear congruential generator, of 64 bits (the multiplier and the increment are Knuth's MMIX).
#[derive(Drop)]
struct Generator {
    state: u64,
}

impl Generator {
    fn next_below(&mut self, bound: u8) -> u8
        requires { 0 < bound }
        ensures { result < bound }
    {
        self.state = self
            .state
            .wrapping_mul(6364136223846793005)
            .wrapping_add(1442695040888963407);
        ((self.state >> 33) % bound as u64) as u8
    }
}

// Registers and slots in turn.
fn location(number: u8) -> Loc
    ensures { (result ≡ Loc.Reg number) ⊎ (result ≡ Loc.Slot number) }
{
    if number % 2 == 0 {
        Loc::Reg(number)
    } else {
        Loc::Slot(number as u16)
    }
}

// Moves to the first locations from any of the first 15.
fn random_moves(generator: &mut Generator) -> ArrayVec<(Loc, Loc), 16>
    ensures targets_differ { AllPairs (λ m n. m.0 ≢ n.0) result.items }
    ensures scratch_free { All (λ m. (m.0 ≢ SCRATCH) × (m.1 ≢ SCRATCH)) result.items }
{
    let mut moves = ArrayVec::new();
    for number in 0..generator.next_below(16) {
        let source = generator.next_below(15);
        moves.push((location(number), location(source)));
    }
    moves
}

#[test]
fn random_moves_agree_with_a_plain_run(rt: HostRuntime) {
    let mut generator = Generator { state: 1 };
    let mut order = MoveList::new();
    let before = Contents::numbered();
    for _ in 0..200 {
        let moves = random_moves(&mut generator);
        order_moves(moves.as_slice(), SCRATCH, &mut order);
        let made = order.moves();
        assert_eq!(rt;
            moved(&before, made),
            assigned(&before, moves.as_slice()),
            "{made:?}"
        );
    }
}

#[test]
fn two_registers_change_places(rt: HostRuntime) {
    let mut before = Contents::numbered();
    before.set(Loc::Reg(1), 5);
    before.set(Loc::Reg(2), 7);
    let mut order = MoveList::new();
    order_moves(
        &[(Loc::Reg(1), Loc::Reg(2)), (Loc::Reg(2), Loc::Reg(1))],
        SCRATCH,
        &mut order,
    );
    let after = moved(&before, order.moves());
    assert_eq!(rt; after.get(Loc::Reg(1)), 7);
    assert_eq!(rt; after.get(Loc::Reg(2)), 5);
}
