// Trip files with a fault, each told with its line.
use std::test::Fail;
use tripfile::fault::{TripFault, Wrong};
use tripfile::read::read_trip;
use tripfile::trip::Window;

#[test]
fn faults_have_their_line(rt: HostRuntime) {
    for (text, line, wrong) in [
        ("shot 1 2 3000 0 0\nshoot 2 3 1000 0 0\n", 2, Wrong::Word),
        ("# a comment\n\nshot 1 2 3000 0\n", 3, Wrong::TooFew),
        ("shot 1 2 3000 0 0 7\n", 1, Wrong::TooMany),
        ("shot 1 2 3.5 0 0\n", 1, Wrong::Number),
        ("shot 1 2 3000 36000 0\n", 1, Wrong::Range),
        ("shot 1 2 3000 35999 -9001\n", 1, Wrong::Range),
        ("trip a\npage 4 100 0\n", 2, Wrong::NoColumn),
    ] {
        assert_eq!(rt;
            read_trip(rt.alloc(), text).err(),
            Some(TripFault::Line(line, wrong)),
            "{text}"
        );
    }
}

#[test]
fn two_surveys_have_two_filters_each(rt: HostRuntime) {
    for (text, line, wrong) in [
        ("survey\n", 1, Wrong::NoName),
        ("survey a b\n", 1, Wrong::TooMany),
        ("filter to 1 9\nsurvey a\n", 1, Wrong::NoSurvey),
        ("survey a\nfilter depth 1 9\n", 2, Wrong::Word),
        (
            "survey a\nfilter to 1 9\nfilter to 1 9\nfilter to 1 9\n",
            4,
            Wrong::ThirdFilter,
        ),
        ("survey a\nsurvey b\nsurvey c\n", 3, Wrong::ThirdSurvey),
        (
            "survey a\nsurvey b\nfilter to 1 9\nfilter to 1 9\n",
            1,
            Wrong::FewFilters,
        ),
        (
            "survey a\nfilter to 1 9\nfilter to 1 9\nsurvey b\nfilter to 1 9\n",
            4,
            Wrong::FewFilters,
        ),
        (
            "survey a\nfilter to 1 9\nfilter to 1 9\n",
            3,
            Wrong::FewSurveys,
        ),
        ("trip a\n", 1, Wrong::FewSurveys),
    ] {
        assert_eq!(rt;
            read_trip(rt.alloc(), text).err(),
            Some(TripFault::Line(line, wrong)),
            "{text}"
        );
    }
}

#[test]
fn kept_shots_are_counted_from_one(rt: HostRuntime) -> Result<(), Fail> {
    let surveys =
        "survey a\nfilter to 1 9\nfilter to 1 9\nsurvey b\nfilter to 1 9\nfilter length 0 5000\n";
    for (line, asked) in [
        ("", Ok(Window::ALL)),
        ("shots 1 1", Ok(Window { first: 1, last: 1 })),
        (
            "shots 10 19",
            Ok(Window {
                first: 10,
                last: 19,
            }),
        ),
        ("shots 0 3", Err(Wrong::Range)),
        ("shots 4 3", Err(Wrong::Range)),
        ("shots 1 4294967296", Err(Wrong::Range)),
        ("shots 4", Err(Wrong::TooFew)),
        ("shots 4 5 6", Err(Wrong::TooMany)),
    ] {
        let text = format!(in rt.alloc(); "{surveys}{line}")?;
        assert_eq!(rt;
            read_trip(rt.alloc(), text.as_str()).map(|trip| trip.window),
            asked.map_err(|wrong| TripFault::Line(7, wrong)),
            "{line}"
        );
    }
    Ok(())
}
