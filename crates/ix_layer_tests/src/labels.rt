ghost use Rattle.std.specs.Prelude.{◌≡◌, ◌<◌};

use ix_label::{Form, Label, LabelFault, LabelText, Steps};
use std::marker::Brand;
use std::process::Abort;
use std::sync::ledger::{Blank, Ledger};

/// Texts that spell a label in each form.
const SPELLINGS: [&[u8]; 11] = [
    b"-",
    b"*",
    b"0",
    b"255",
    b"3-4",
    b"3,7-9",
    b"0-254",
    b"1-255",
    b"0,2-255",
    b"0,2,4,6,8,10",
    b"9-10,99-100,199,201-255",
];

/// Texts that spell a label in form Two alone.
const WIDE_SPELLINGS: [&[u8]; 8] = [
    b"256",
    b"511",
    b"0-255",
    b"0-255,300",
    b"0-510",
    b"1-511",
    b"63-64,127-128,191-192,255-256,319-320,383-384,447-448",
    b"0,2-511",
];

#[test]
fn each_spelling_is_written_as_it_was_read(rt: HostRuntime) {
    respell::<Brand, _>(&rt, Blank::new(1));
}

fn respell<L: Ledger, R: Abort>(rt: &R, blank: Blank)
    requires name { blank.name ≡ L.name }
    requires parts { blank.parts ≡ L.parts }
    requires some { 0 < L.parts }
{
    let mut steps = Steps::<L>::new(blank);
    let mut text = LabelText::new();
    for spelling in SPELLINGS {
        for form in [Form::One, Form::Two] {
            match Label::read(form, spelling) {
                Ok(label) => {
                    label.text_into(form, &mut text, &mut steps);
                    assert!(rt; text.as_bytes() == spelling);
                }
                Err(fault) => panic!(rt; "{fault:?}"),
            }
        }
    }
    for spelling in WIDE_SPELLINGS {
        assert!(rt; Label::read(Form::One, spelling).is_err());
        match Label::read(Form::Two, spelling) {
            Ok(label) => {
                label.text_into(Form::Two, &mut text, &mut steps);
                assert!(rt; text.as_bytes() == spelling);
            }
            Err(fault) => panic!(rt; "{fault:?}"),
        }
    }
}

#[test]
fn each_fault_is_the_first(rt: HostRuntime) {
    let faulty: [(&[u8], LabelFault); 24] = [
        (b"", LabelFault::Empty),
        (b"3,4", LabelFault::NotLongest { at: 2 }),
        (b"9,7", LabelFault::NotAscending { at: 2 }),
        (b"7,7", LabelFault::NotAscending { at: 2 }),
        (b"5-5", LabelFault::NotAscending { at: 2 }),
        (b"3-5,6", LabelFault::NotLongest { at: 4 }),
        (b"07", LabelFault::BadNumber { at: 0 }),
        (b"00", LabelFault::BadNumber { at: 0 }),
        (b"3,", LabelFault::BadNumber { at: 2 }),
        (b"3,,4", LabelFault::BadNumber { at: 2 }),
        (b"3-", LabelFault::BadNumber { at: 2 }),
        (b"3--5", LabelFault::BadNumber { at: 2 }),
        (b"1-2-3", LabelFault::BadNumber { at: 3 }),
        (b"1 ", LabelFault::BadNumber { at: 1 }),
        (b"-3", LabelFault::BadNumber { at: 0 }),
        (b"*,3", LabelFault::BadNumber { at: 0 }),
        (b"--", LabelFault::BadNumber { at: 0 }),
        (b"256", LabelFault::OutOfRange { at: 0 }),
        (b"3-256", LabelFault::OutOfRange { at: 2 }),
        (b"9,300x", LabelFault::OutOfRange { at: 2 }),
        (b"99999999999999999999999", LabelFault::OutOfRange { at: 0 }),
        (b"9,7x", LabelFault::NotAscending { at: 2 }),
        (b"0-255", LabelFault::NotLongest { at: 0 }),
        (b"0-255,", LabelFault::BadNumber { at: 6 }),
    ];
    for (text, fault) in faulty {
        assert_eq!(rt; Label::read(Form::One, text).err(), Some(fault), "{text:?}");
    }
}

#[test]
fn each_fault_of_form_two_is_the_first(rt: HostRuntime) {
    let faulty: [(&[u8], LabelFault); 8] = [
        (b"", LabelFault::Empty),
        (b"3,4", LabelFault::NotLongest { at: 2 }),
        (b"255,256", LabelFault::NotLongest { at: 4 }),
        (b"256,255", LabelFault::NotAscending { at: 4 }),
        (b"0-511", LabelFault::NotLongest { at: 0 }),
        (b"0-511,", LabelFault::BadNumber { at: 6 }),
        (b"512", LabelFault::OutOfRange { at: 0 }),
        (b"3-512", LabelFault::OutOfRange { at: 2 }),
    ];
    for (text, fault) in faulty {
        assert_eq!(rt; Label::read(Form::Two, text).err(), Some(fault), "{text:?}");
    }
}

#[test]
fn labels_compare_as_sets(rt: HostRuntime) {
    compare::<Brand, _>(&rt, Blank::new(1));
}

fn compare<L: Ledger, R: Abort>(rt: &R, blank: Blank)
    requires name { blank.name ≡ L.name }
    requires parts { blank.parts ≡ L.parts }
    requires some { 0 < L.parts }
{
    let mut steps = Steps::<L>::new(blank);
    let low = Label::bottom().with(3).with(64);
    let high = low.with(255);
    assert!(rt; high.has(64, &mut steps) && !low.has(255, &mut steps));
    assert!(rt; low.leq(&high, &mut steps) && !high.leq(&low, &mut steps));
    assert!(rt; low.join(&high, &mut steps).same(&high, &mut steps));
    assert!(rt; low.meet(&high, &mut steps).same(&low, &mut steps));
    assert!(rt; high.leq(&Label::top(), &mut steps));
    let wide = high.with(256).with(511);
    assert!(rt; high.narrow(&mut steps) && !wide.narrow(&mut steps));
    assert!(rt; wide.has(511, &mut steps) && !wide.has(512, &mut steps));
    assert!(rt; Label::all_of(Form::Two).same(&Label::top(), &mut steps));
    assert!(rt; Label::all_of(Form::One).narrow(&mut steps));
}
