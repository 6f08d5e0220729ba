use ra_base::Text;
use system_maker::{make, make_tables};
use system_model::{Interface, Line, Rates, Storage, Unit};
use system_tables::read_system;

// The expected numbers are worked out by hand from the rule.
#[test]
fn a_made_system_is_as_the_rule_says(rt: HostRuntime) {
    let Ok(system) = make(rt.alloc(), 20) else {
        panic!(rt; "no memory");
    };
    assert_eq!(rt; system.zones(), 3);
    assert_eq!(rt; system.units(), 96);
    assert_eq!(rt; system.interfaces(), 3);
    assert_eq!(rt; system.lines(), 5);
    assert_eq!(rt; system.storages(), 2);
    assert_eq!(rt; system.hours(), 8_784);
    assert_eq!(rt; system.zone_name(2), b"Z2".as_slice());
    assert_eq!(rt; system.unit_name(95), b"U95".as_slice());
    assert_eq!(rt;
        system.unit(95),
        Unit {
            zone: 2,
            capacity: 50,
            rates: Rates {
                f: 2_000_000,
                r: 20_000_000,
            },
        }
    );
    assert_eq!(rt;
        system.interface(2),
        Interface {
            from: 0,
            to: 2,
            forward: 400,
            backward: 400,
        }
    );
    assert_eq!(rt;
        system.line(4),
        Line {
            interface: 1,
            forward: 250,
            backward: 200,
            rates: Rates {
                f: 1_000_000,
                r: 100_000_000,
            },
        }
    );
    assert_eq!(rt;
        system.storage(1),
        Storage {
            zone: 1,
            charge: 100,
            discharge: 120,
            energy: 400_000,
            start: 200_000,
            charge_eff: 900,
            discharge_eff: 950,
            carry: 999,
            rates: Rates {
                f: 1_000_000,
                r: 50_000_000,
            },
        }
    );
    for (hour, zone, load, variable) in [
        (0, 0, 1_660, 0),
        (1, 1, 1_700, 70),
        (180, 1, 2_140, 0),
        (180, 2, 2_140, 0),
        (8_783, 1, 1_640, 10),
    ] {
        assert_eq!(rt; system.load(hour, zone), load, "hour {hour} zone {zone}");
        assert_eq!(rt;
            system.variable(hour, zone),
            variable,
            "hour {hour} zone {zone}"
        );
    }
}

// A table's length, its first bytes and its last ones.
#[derive(Clone, Copy)]
struct Frame {
    len: usize,
    front: &'static [u8],
    back: &'static [u8],
}

impl Frame {
    fn fits(self, table: &Option<Text>) -> bool {
        let Some(text) = table else {
            return false;
        };
        let bytes = text.bytes();
        bytes.len() == self.len && bytes.starts_with(self.front) && bytes.ends_with(self.back)
    }
}

const ZONES: Frame = Frame {
    len: 14,
    front: b"name\nZ0\nZ1\nZ2\n",
    back: b"\n",
};

const UNITS: Frame = Frame {
    len: 3_320,
    front: b"name,zone,capacity,failure,repair\nU0,Z0,100,0.000500000,0.020000000\nU1,Z1,30,",
    back: b"\nU95,Z2,50,0.002000000,0.020000000\n",
};

const INTERFACES: Frame = Frame {
    len: 81,
    front: b"name,from,to,forward,backward\nI0,Z0,Z1,400,400\nI1,Z1,Z2,400,400\n",
    back: b"\nI2,Z0,Z2,400,400\n",
};

const LINES: Frame = Frame {
    len: 237,
    front: b"name,interface,forward,backward,failure,repair\nL0,I0,250,200,0.001000000,",
    back: b"\nL4,I1,250,200,0.001000000,0.100000000\n",
};

const STORAGES: Frame = Frame {
    len: 252,
    front: b"name,zone,charge,discharge,energy_kwh,start_kwh,charge_efficiency,discharge_efficiency,carryover,failure,repair\nS0,Z0,100,120,400000,200000,0.900,0.950,0.999,0.001000000,0.050000000\nS1,Z1,100,",
    back: b",120,400000,200000,0.900,0.950,0.999,0.001000000,0.050000000\n",
};

const LOAD: Frame = Frame {
    len: 174_584,
    front: b"hour,Z0,Z1,Z2\n0,1660,1660,1660\n1,1700,1700,1700\n",
    back: b"\n8783,1640,1640,1640\n",
};

const VARIABLE: Frame = Frame {
    len: 108_263,
    front: b"hour,Z0,Z1,Z2\n0,0,0,0\n1,0,70,0\n2,0,140,0\n",
    back: b"\n8783,0,10,0\n",
};

// The expected bytes are those of a program that was written apart from this one.
#[test]
fn made_tables_have_the_bytes_of_the_rule(rt: HostRuntime) {
    let Ok(tables) = make_tables(rt.alloc(), 20) else {
        panic!(rt; "no memory");
    };
    assert!(rt; ZONES.fits(&tables.zones), "zones");
    assert!(rt; UNITS.fits(&tables.units), "units");
    assert!(rt; INTERFACES.fits(&tables.interfaces), "interfaces");
    assert!(rt; LINES.fits(&tables.lines), "lines");
    assert!(rt; STORAGES.fits(&tables.storages), "storages");
    assert!(rt; LOAD.fits(&tables.load), "load");
    assert!(rt; VARIABLE.fits(&tables.variable), "variable");
    assert!(rt; read_system(rt.alloc(), &tables).is_ok(), "read again");
}
