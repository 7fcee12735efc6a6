ghost use Rattle.std.specs.Prelude.{◌≡◌, ◌≤◌, ◌+◌, ◌*◌, ◌++◌, ◌∷◌, [], IfOk, OnOk, codes, decimal, map, pos};
ghost use Rattle.std.specs.List.{flat_map, range_with_len};
ghost use Rattle.board_parts.specs.Lookup.{layer_at};
ghost use Rattle.board_text.specs.Spelled.{class_at};
ghost use Rattle.board_gen.specs.Generated.{wire, block_of, net_name_of, pins_of, generated_board};

use crate::shapes::{block_of, partner, pin_at};
use board_model::{Block, BoardParts, Pin, Rule, ViaKind};
use geo_rect::{ClassId, LayerId, List, NoMemory, Text};
use itoa::Buffer;
use std::alloc::Global;

/// The layers, the classes and the rules of a board, and its gaps in micrometres.
#[derive(Drop)]
struct Wires {
    layers: List<Text>,
    classes: List<Text>,
    rules: List<Rule>,
    gaps: List<i32>,
}

/// The kinds of vias of a board, and half the widths of their pads in micrometres.
#[derive(Drop)]
struct Vias {
    names: List<Text>,
    kinds: List<ViaKind>,
    pads: List<i32>,
    inners: List<i32>,
}

/// The nets of a board.
#[derive(Drop)]
struct Nets {
    names: List<Text>,
    classes: List<ClassId>,
    pins: List<Pin>,
}

/// These letters and then a number.
fn numbered(alloc: Global, letters: &str, number: u32) -> Result<Text, NoMemory>
    ensures { IfOk result (λ t. t ≡ letters.now ++ decimal number) }
{
    let mut buffer = Buffer::new();
    let mut name = String::from_str(alloc, letters)?;
    name.push_str(buffer.format(number))?;
    Text::from_str(alloc, name.as_str())
}

/// The list of one name.
fn one_name(alloc: Global, name: &str) -> Result<List<Text>, NoMemory>
    ensures { IfOk result (λ l. l ≡ name.now ∷ []) }
{
    let mut names = List::new(alloc);
    names.push(Text::from_str(alloc, name)?)?;
    Ok(names)
}

fn layer_names(alloc: Global) -> Result<List<Text>, NoMemory>
    ensures { IfOk result (λ l. l ≡ codes "top" ∷ codes "bot" ∷ []) }
{
    let mut names = one_name(alloc, "top")?;
    names.push(Text::from_str(alloc, "bot")?)?;
    Ok(names)
}

impl Wires {
    fn new(alloc: Global) -> Result<Wires, NoMemory>
        ensures layers { IfOk result (λ w. w.layers ≡ codes "top" ∷ codes "bot" ∷ []) }
        ensures classes { IfOk result (λ w. w.classes ≡ codes "sig" ∷ []) }
        ensures rules { IfOk result (λ w. w.rules ≡ wire ∷ wire ∷ []) }
        ensures gaps { IfOk result (λ w. w.gaps ≡ pos 10 ∷ pos 10 ∷ []) }
    {
        let wire = Rule { half: 10, gap: 10 };
        let layers = layer_names(alloc)?;
        let classes = one_name(alloc, "sig")?;
        let rules = List::from_slice(alloc, &[wire, wire])?;
        let gaps = List::from_slice(alloc, &[10, 10])?;
        Ok(Wires {
            layers,
            classes,
            rules,
            gaps,
        })
    }
}

impl Vias {
    fn new(alloc: Global) -> Result<Vias, NoMemory>
        ensures names { IfOk result (λ v. v.names ≡ codes "v" ∷ []) }
        ensures kinds { IfOk result (λ v. v.kinds ≡ record { first = layer_at 0; last = layer_at 1; charge = 50 } ∷ []) }
        ensures pads { IfOk result (λ v. v.pads ≡ pos 15 ∷ []) }
        ensures inners { IfOk result (λ v. v.inners ≡ pos 15 ∷ []) }
    {
        let kind = ViaKind {
            first: LayerId(0),
            last: LayerId(1),
            charge: 50,
        };
        let names = one_name(alloc, "v")?;
        let kinds = List::from_slice(alloc, &[kind])?;
        let pads = List::from_slice(alloc, &[15])?;
        let inners = List::from_slice(alloc, &[15])?;
        Ok(Vias {
            names,
            kinds,
            pads,
            inners,
        })
    }
}

fn blocks(alloc: Global, n: u32) -> Result<List<Block>, NoMemory>
    requires { n ≤ 2000 }
    ensures { IfOk result (λ l. l ≡ map block_of (range_with_len 1 n)) }
{
    let mut blocks = List::new(alloc);
    let end = n + 1;
    for i in 1..end {
        blocks.push(block_of(i))?;
    }
    Ok(blocks)
}

fn net_names(alloc: Global, n: u32) -> Result<List<Text>, NoMemory>
    requires { n ≤ 2000 }
    ensures { IfOk result (λ l. l ≡ map net_name_of (range_with_len 1 n)) }
{
    let mut names = List::new(alloc);
    let end = n + 1;
    for i in 1..end {
        names.push(numbered(alloc, "n", i)?)?;
    }
    Ok(names)
}

fn net_classes(alloc: Global, n: u32) -> Result<List<ClassId>, NoMemory>
    requires { n ≤ 2000 }
    ensures { IfOk result (λ l. l ≡ map (λ i. class_at 0) (range_with_len 1 n)) }
{
    let mut classes = List::new(alloc);
    let end = n + 1;
    for _i in 1..end {
        classes.push(ClassId(0))?;
    }
    Ok(classes)
}

/// Adds the two pins of net `i` of `n`.
fn push_pins(pins: &mut List<Pin>, n: u32, i: u32) -> Result<(), NoMemory>
    requires some { 1 ≤ i }
    requires few { i ≤ 2000 }
    ensures { OnOk result (pins.new ≡ pins.old ++ pins_of n i) }
{
    pins.push(pin_at(i, 100, i))?;
    pins.push(pin_at(i, 19_860, partner(n, i)))
}

fn pins(alloc: Global, n: u32) -> Result<List<Pin>, NoMemory>
    requires { n ≤ 2000 }
    ensures { IfOk result (λ l. l ≡ flat_map (pins_of n) (range_with_len 1 n)) }
{
    let mut pins = List::new(alloc);
    let end = n + 1;
    for i in 1..end {
        push_pins(&mut pins, n, i)?;
    }
    Ok(pins)
}

impl Nets {
    fn of(alloc: Global, n: u32) -> Result<Nets, NoMemory>
        requires { n ≤ 2000 }
        ensures names { IfOk result (λ s. s.names ≡ map net_name_of (range_with_len 1 n)) }
        ensures classes { IfOk result (λ s. s.classes ≡ map (λ i. class_at 0) (range_with_len 1 n)) }
        ensures pins { IfOk result (λ s. s.pins ≡ flat_map (pins_of n) (range_with_len 1 n)) }
    {
        let names = net_names(alloc, n)?;
        let classes = net_classes(alloc, n)?;
        let pins = pins(alloc, n)?;
        Ok(Nets {
            names,
            classes,
            pins,
        })
    }
}

/// The height of the generated board of `n` nets, in micrometres.
fn height(n: u32) -> i32
    requires { n ≤ 2000 }
    ensures { result ≡ pos (100 * n + 200) }
{
    (100 * n + 200) as i32
}

/// The generated board of `n` nets, put together.
#[tactic(auto, unfolding(crate::specs::Generated::generated_board))]
fn put_together(
    alloc: Global,
    n: u32,
    name: Text,
    wires: Wires,
    vias: Vias,
    blocks: List<Block>,
    nets: Nets,
) -> BoardParts
    requires few { n ≤ 2000 }
    requires name { name ≡ codes "gen" ++ decimal n }
    requires layers { wires.layers ≡ codes "top" ∷ codes "bot" ∷ [] }
    requires classes { wires.classes ≡ codes "sig" ∷ [] }
    requires rules { wires.rules ≡ wire ∷ wire ∷ [] }
    requires gaps { wires.gaps ≡ pos 10 ∷ pos 10 ∷ [] }
    requires kind_names { vias.names ≡ codes "v" ∷ [] }
    requires kinds { vias.kinds ≡ record { first = layer_at 0; last = layer_at 1; charge = 50 } ∷ [] }
    requires pads { vias.pads ≡ pos 15 ∷ [] }
    requires inners { vias.inners ≡ pos 15 ∷ [] }
    requires blocks { blocks ≡ map block_of (range_with_len 1 n) }
    requires net_names { nets.names ≡ map net_name_of (range_with_len 1 n) }
    requires net_classes { nets.classes ≡ map (λ i. class_at 0) (range_with_len 1 n) }
    requires pins { nets.pins ≡ flat_map (pins_of n) (range_with_len 1 n) }
    ensures { result ≡ generated_board n }
{
    BoardParts {
        name,
        width: 20_000,
        height: height(n),
        layers: wires.layers,
        classes: wires.classes,
        rules: wires.rules,
        gaps: wires.gaps,
        kind_names: vias.names,
        kinds: vias.kinds,
        pads: vias.pads,
        inners: vias.inners,
        blocks,
        keepouts: List::new(alloc),
        net_names: nets.names,
        net_classes: nets.classes,
        pins: nets.pins,
    }
}

/// The generated board of `n` nets, as its plain lists.
pub fn parts(alloc: Global, n: u32) -> Result<BoardParts, NoMemory>
    requires { n ≤ 2000 }
    ensures { IfOk result (λ p. p ≡ generated_board n) }
{
    let name = numbered(alloc, "gen", n)?;
    let wires = Wires::new(alloc)?;
    let vias = Vias::new(alloc)?;
    let blocks = blocks(alloc, n)?;
    let nets = Nets::of(alloc, n)?;
    Ok(put_together(alloc, n, name, wires, vias, blocks, nets))
}
