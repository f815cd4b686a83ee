//! The small types, each made of one item, and how a study is printed.
use crate::{
    Counts, Decs, Driver, Entry, FailRule, Interface, Labels, Method, ParamForm, Responses, Said,
    Study, Text, Units, Variables, Way, Words,
};
use dk_num::{Dec, Unit};
use std::alloc::Global;
use std::test::Fail;

/// A list has the items that it is made of, and so has its copy.
#[test]
fn lists_are_what_they_are_made_of(rt: HostRuntime) -> Result<(), Fail> {
    let alloc = rt.alloc();
    let labels = Labels::of(alloc, &[Text::of(alloc, "x1")?])?.copy(alloc)?;
    assert_eq!(rt; labels.items().len(), 1);
    assert_eq!(rt; labels.items()[0].as_str(), "x1");
    let units = Units::of(alloc, &[-7])?.copy(alloc)?;
    assert_eq!(rt; units.items(), [-7].as_slice());
    let mut units = Units::of_vec(vec![in alloc; -7, -8]?);
    assert_eq!(rt; units.items(), [-7, -8].as_slice());
    units.set(1, 9);
    assert_eq!(rt; units.items(), [-7, 9].as_slice());
    let counts = Counts::of(alloc, &[3])?.copy(alloc)?;
    assert_eq!(rt; counts.items(), [3].as_slice());
    let counts = Counts::of_vec(vec![in alloc; 3]?);
    assert_eq!(rt; counts.items(), [3].as_slice());
    let decimals = Decs::of(alloc, &[Dec::whole(5)])?.copy(alloc)?;
    assert_eq!(rt; decimals.items(), [Dec::whole(5)].as_slice());
    let decimals = Decs::of_vec(vec![in alloc; Dec::whole(5)]?);
    assert_eq!(rt; decimals.items(), [Dec::whole(5)].as_slice());
    Ok(())
}

/// Each rule copies to itself.
#[test]
fn rules_copy_to_themselves(rt: HostRuntime) -> Result<(), Fail> {
    let alloc = rt.alloc();
    assert!(rt; matches!(FailRule::Abort.copy(alloc)?, FailRule::Abort));
    assert!(rt; matches!(FailRule::Retry(1).copy(alloc)?, FailRule::Retry(1)));
    let values = Decs::of(alloc, &[Dec::whole(7)])?;
    match FailRule::Recover(values).copy(alloc)? {
        FailRule::Recover(values) => assert_eq!(rt; values.items(), [Dec::whole(7)].as_slice()),
        _ => assert!(rt; false),
    }
    Ok(())
}

fn a_label(alloc: Global, label: &str) -> Result<Labels, Fail> {
    Ok(Labels::of(alloc, &[Text::of(alloc, label)?])?)
}

fn a_variable(alloc: Global) -> Result<Variables, Fail> {
    Ok(Variables {
        labels: a_label(alloc, "x1")?,
        initial: Units::of(alloc, &[-7])?,
        lower: None,
        upper: Some(Units::of(alloc, &[9])?),
    })
}

fn an_interface(alloc: Global) -> Result<Interface, Fail> {
    Ok(Interface {
        driver: Driver::Fork {
            words: Words::of(alloc, &[Text::of(alloc, "./f.sh")?])?,
        },
        parameters: Text::of(alloc, "p.in")?,
        results: Text::of(alloc, "r.out")?,
        form: ParamForm::Aprepro,
        tag: true,
        save: false,
        concurrency: 4,
        rule: FailRule::Recover(Decs::of(alloc, &[Dec::whole(7)])?),
    })
}

fn a_study(alloc: Global) -> Result<Study, Fail> {
    Ok(Study {
        unit: Unit { exponent: -28 },
        variables: a_variable(alloc)?,
        responses: Responses {
            labels: a_label(alloc, "f")?,
            objectives: true,
        },
        method: Method::Vector {
            steps: 2,
            way: Way::Step(Units::of(alloc, &[8])?),
        },
        interface: an_interface(alloc)?,
        table: Some(Text::of(alloc, "t.dat")?),
        limit: 3,
    })
}

/// A study and an attempt are printed with the names of their fields.
#[test]
fn studies_are_printed(rt: HostRuntime) -> Result<(), Fail> {
    let alloc = rt.alloc();
    let study = a_study(alloc)?;
    assert_eq!(rt;
        format!(in alloc; "{study:?}")?.as_str(),
        "Study { unit: Unit { exponent: -28 }, variables: Variables { labels: Labels { items: [Text { bytes: \"x1\" }] }, \
        initial: Units { items: [-7] }, lower: None, upper: Some(Units { items: [9] }) }, \
        responses: Responses { labels: Labels { items: [Text { bytes: \"f\" }] }, objectives: true }, \
        method: Vector { steps: 2, way: Step(Units { items: [8] }) }, \
        interface: Interface { driver: Fork { words: Words { items: [Text { bytes: \"./f.sh\" }] } }, \
        parameters: Text { bytes: \"p.in\" }, results: Text { bytes: \"r.out\" }, form: Aprepro, tag: true, save: false, \
        concurrency: 4, rule: Recover(Decs { items: [Dec { mantissa: 7, exponent: 0 }] }) }, \
        table: Some(Text { bytes: \"t.dat\" }), limit: 3 }"
    );
    let entry = Entry {
        point: Decs::of(alloc, &[Dec::whole(50)])?,
        attempt: 2,
        said: Said::Failed,
    };
    assert_eq!(rt;
        format!(in alloc; "{entry:?}")?.as_str(),
        "Entry { point: Decs { items: [Dec { mantissa: 5, exponent: 1 }] }, attempt: 2, said: Failed }"
    );
    Ok(())
}
