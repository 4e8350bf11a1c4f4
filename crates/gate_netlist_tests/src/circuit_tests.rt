ghost use Rattle.std.specs.Prelude.{◌≤◌};

use gate_netlist::{Bench, Circuit, Cut, SettingsFault, read_bench};
use std::alloc::Global;
use std::test::Fail;

const FLIP_FLOP: &str = "INPUT(D)\nQ = DFF(D)\n";

const INVERTER: &str = "INPUT(A)\nOUTPUT(Y)\nY = NOT(A)\n";

const GATED: &str = "INPUT(D)\nINPUT(E)\nINPUT(CK)\nG = AND(CK, E)\nQ = DFF(D)\n";

const S27: &str =
    "INPUT(G0)\nINPUT(G1)\nINPUT(G2)\nINPUT(G3)\nOUTPUT(G17)\nG5 = DFF(G10)\nG6 = DFF(G11)\nG7 = DFF(G13)\nG14 = NOT(G0)\nG17 = NOT(G11)\nG8 = AND(G14, G6)\nG15 = OR(G12, G8)\nG16 = OR(G3, G8)\nG9 = NAND(G16, G15)\nG10 = NOR(G14, G11)\nG11 = NOR(G5, G9)\nG12 = NOR(G1, G7)\nG13 = NOR(G2, G12)\n";

fn circuit_of(alloc: Global, bench: &str, settings: &str) -> Result<Circuit, SettingsFault> {
    let bench: Bench = match read_bench(alloc, bench.as_bytes()) {
        Ok(bench) => bench,
        Err(_) => return Err(SettingsFault::Memory),
    };
    Circuit::of(alloc, bench, settings.as_bytes())
}

fn clock_of(alloc: Global, bench: &str, settings: &str) -> Result<Option<u32>, SettingsFault> {
    let circuit = circuit_of(alloc, bench, settings)?;
    let clock = circuit.clock();
    drop(circuit);
    Ok(clock)
}

fn net_of(alloc: Global, bench: &str, name: &str) -> Result<Option<u32>, SettingsFault> {
    let circuit = circuit_of(alloc, bench, "")?;
    let net = circuit.find(name);
    drop(circuit);
    Ok(net)
}

/// Whether these are the outputs of a bench.
fn has_outputs(alloc: Global, bench: &str, nets: &[u32]) -> Result<bool, SettingsFault> {
    let circuit = circuit_of(alloc, bench, "")?;
    let has_outputs = circuit.outputs() == nets;
    drop(circuit);
    Ok(has_outputs)
}

/// The number of blocks of the settings' cut, where that cut is there and fits.
fn cut_blocks(alloc: Global, settings: &str) -> Result<Option<u32>, SettingsFault> {
    let circuit = circuit_of(alloc, S27, settings)?;
    let blocks = match circuit.cut() {
        Some(cut) if cut.fits(&circuit) => Some(cut.blocks()),
        _ => None,
    };
    drop(circuit);
    Ok(blocks)
}

fn even_owner_in(alloc: Global, circuit: &Circuit, net: u32) -> Result<Option<u32>, SettingsFault> {
    let cut = Cut::even(alloc, circuit, 3)?;
    let owner = if cut.fits(circuit) {
        cut.owner(net)
    } else {
        None
    };
    drop(cut);
    Ok(owner)
}

/// The owner of a net by the even cut into three blocks, where that cut fits.
fn even_owner(alloc: Global, net: u32) -> Result<Option<u32>, SettingsFault> {
    let circuit = circuit_of(alloc, S27, "")?;
    let owner = even_owner_in(alloc, &circuit, net);
    drop(circuit);
    owner
}

/// Whether these are the readers of a net.
fn has_readers(
    alloc: Global,
    bench: &str,
    net: u32,
    readers: &[u32],
) -> Result<bool, SettingsFault> {
    let circuit = circuit_of(alloc, bench, "")?;
    let has_readers = net < circuit.nets() && circuit.readers(net) == readers;
    drop(circuit);
    Ok(has_readers)
}

/// The even cut of a bench.
fn even_cut(alloc: Global, bench: &str, blocks: u32) -> Result<Cut, SettingsFault>
    requires some { 1 ≤ blocks }
    requires within { blocks ≤ 1024 }
{
    let circuit = circuit_of(alloc, bench, "")?;
    let cut = Cut::even(alloc, &circuit, blocks);
    drop(circuit);
    Ok(cut?)
}

/// Whether these are a block's own nets in the even cut of s27 into three.
fn has_own_nets(alloc: Global, block: u32, nets: &[u32]) -> Result<bool, SettingsFault> {
    let cut = even_cut(alloc, S27, 3)?;
    let has_own_nets = block < cut.blocks() && cut.own_nets(block) == nets;
    drop(cut);
    Ok(has_own_nets)
}

/// Whether a cut fits the circuit of a bench.
fn fits(alloc: Global, cut: &Cut, bench: &str) -> Result<bool, SettingsFault> {
    let circuit = circuit_of(alloc, bench, "")?;
    let fits = cut.fits(&circuit);
    drop(circuit);
    Ok(fits)
}

/// Whether the even cut of one bench fits the circuit of another.
fn fits_another(alloc: Global, bench: &str, other: &str) -> Result<bool, SettingsFault> {
    let cut = even_cut(alloc, bench, 2)?;
    let fits = fits(alloc, &cut, other);
    drop(cut);
    fits
}

#[test]
fn outputs_in_the_order_of_their_lines(rt: HostRuntime) -> Result<(), Fail> {
    let twice = "INPUT(a)\nINPUT(A)\nOUTPUT(A)\nOUTPUT(a)\nOUTPUT(A)";
    assert!(rt; has_outputs(rt.alloc(), twice, &[1, 0])?);
    assert!(rt; has_outputs(rt.alloc(), S27, &[8])?);
    Ok(())
}

/// Benches and settings, and the clock: the net of the name that `clock` gives, where a flip-flop takes this name.
static CLOCKS: [(&str, &str, Option<u32>); 9] = [
    (FLIP_FLOP, "", Some(2)),
    (FLIP_FLOP, "clock = \"D\"", Some(0)),
    (FLIP_FLOP, "clock = \"Q\"", Some(1)),
    (FLIP_FLOP, "[clocks]\nQ = \"CK\"", Some(2)),
    (FLIP_FLOP, "clock = \"\"\n[clocks]\nQ = \"D\"", None),
    ("Q = DFF(Q)\nCK = NOT(Q)\n", "", Some(1)),
    (INVERTER, "clock = \"Y\"", None),
    (S27, "", Some(17)),
    (GATED, "[clocks]\nQ = \"G\"", None),
];

#[test]
fn the_clock_is_the_net_of_its_name(rt: HostRuntime) -> Result<(), Fail> {
    for (bench, settings, clock) in &CLOCKS {
        let got = clock_of(rt.alloc(), bench, settings)?;
        assert_eq!(rt; got, *clock, "at {settings}");
    }
    Ok(())
}

const CUT: &str = "[block]\nG17 = 3\nG5 = 1";

#[test]
fn cuts(rt: HostRuntime) -> Result<(), Fail> {
    for (settings, blocks) in [("", None), ("[block]", Some(1)), (CUT, Some(4))] {
        assert_eq!(rt; cut_blocks(rt.alloc(), settings)?, blocks, "at {settings}");
    }
    assert!(rt; !fits_another(rt.alloc(), FLIP_FLOP, INVERTER)?);
    Ok(())
}

/// Nets of s27, and their owners by the even cut into three.
static EVEN_OWNERS: [(u32, Option<u32>); 8] = [
    (3, None),
    (4, Some(0)),
    (8, Some(0)),
    (9, Some(1)),
    (12, Some(1)),
    (13, Some(2)),
    (16, Some(2)),
    (17, None),
];

#[test]
fn an_even_cut_of_s27(rt: HostRuntime) -> Result<(), Fail> {
    for (net, owner) in &EVEN_OWNERS {
        assert_eq!(rt; even_owner(rt.alloc(), *net)?, *owner, "at {net}");
    }
    Ok(())
}

#[test]
fn readers_and_own_nets(rt: HostRuntime) -> Result<(), Fail> {
    let twice = "INPUT(A)\nY = AND(A, A)\n";
    assert!(rt; has_readers(rt.alloc(), twice, 0, &[1])?);
    assert!(rt; has_readers(rt.alloc(), S27, 8, &[])?);
    assert!(rt; has_readers(rt.alloc(), S27, 9, &[10, 11])?);
    assert!(rt; has_readers(rt.alloc(), S27, 14, &[5, 8, 13])?);
    assert!(rt; has_readers(rt.alloc(), S27, 17, &[4, 5, 6])?);
    assert!(rt; has_own_nets(rt.alloc(), 1, &[9, 10, 11, 12])?);
    Ok(())
}

/// Names, and the nets of s27 that have them.
static NAMES: [(&str, Option<u32>); 6] = [
    ("G0", Some(0)),
    ("G5", Some(4)),
    ("G13", Some(16)),
    ("CK", Some(17)),
    ("G4", None),
    ("ck", None),
];

#[test]
fn nets_by_their_names(rt: HostRuntime) -> Result<(), Fail> {
    for (name, want) in &NAMES {
        assert_eq!(rt; net_of(rt.alloc(), S27, name)?, *want, "{name}");
    }
    Ok(())
}
