//! Types of the host, both ways.
use super::asking::ask_all;
use super::declared::DECLARED;
use std::test::Fail;

/// Days of a week.
const WEEKDAYS: [(&str, &str); 36] = [
    (r#"accept weekday "Monday""#, "0"),
    (r#"accept weekday "Tuesday""#, "1"),
    (r#"accept weekday "Sunday""#, "6"),
    (r#"accept weekday "tuesday""#, "refused"),
    (r#"accept weekday "TUESDAY""#, "refused"),
    (r#"accept weekday "Tue""#, "refused"),
    (r#"accept weekday "Tuesday ""#, "refused"),
    (r#"accept weekday " Tuesday""#, "refused"),
    (r#"accept weekday """#, "refused"),
    (r#"accept weekday "0""#, "0"),
    (r#"accept weekday "06""#, "6"),
    (r#"accept weekday "6""#, "6"),
    (r#"accept weekday "07""#, "refused"),
    (r#"accept weekday "7""#, "refused"),
    (r#"accept weekday "-1""#, "refused"),
    (r#"accept weekday "-0""#, "0"),
    (r#"accept weekday "-01""#, "refused"),
    (r#"accept weekday "00""#, "0"),
    (r#"accept weekday "1.0""#, "refused"),
    (r#"accept weekday "None""#, "refused"),
    (
        r#"accept weekday "0000000000000000000000000000000000000000000000000000000000000005""#,
        "5",
    ),
    (
        r#"accept weekday "00000000000000000000000000000000000000000000000000000000000000005""#,
        "5",
    ),
    (
        r#"accept weekday "00000000000000000000000000000000000000000000000000000000000000007""#,
        "refused",
    ),
    (
        r#"accept weekday "0000000000000000000000000000000000000000000000000000000000000000000000""#,
        "0",
    ),
    (
        r#"accept weekday "MMMMMMMMMMMMMMMMMMMMMMMMMMMMMMMMMMMMMMMMMMMMMMMMMMMMMMMMMMMMMMMM""#,
        "refused",
    ),
    (
        r#"accept weekday "MMMMMMMMMMMMMMMMMMMMMMMMMMMMMMMMMMMMMMMMMMMMMMMMMMMMMMMMMMMMMMMMM""#,
        "refused",
    ),
    (r#"accept weekday "9223372036854775808""#, "refused"),
    ("text 0 weekday", "Monday"),
    ("text 3 weekday", "Thursday"),
    ("text 6 weekday", "Sunday"),
    ("text 7 weekday", "7"),
    ("text -1 weekday", "-1"),
    (r#"text "Monday" weekday"#, "Monday"),
    (r#"text "a b" weekday"#, "a b"),
    ("text null weekday", "None"),
    ("text 'monday weekday", "monday"),
];

/// Months of a year.
const MONTHS: [(&str, &str); 28] = [
    (r#"accept month "January""#, "1"),
    (r#"accept month "December""#, "12"),
    (r#"accept month "december""#, "refused"),
    (r#"accept month "May""#, "5"),
    (r#"accept month "Undecimber""#, "refused"),
    (r#"accept month "1""#, "1"),
    (r#"accept month "01""#, "1"),
    (r#"accept month "12""#, "12"),
    (r#"accept month "13""#, "refused"),
    (r#"accept month "0""#, "refused"),
    (r#"accept month "-0""#, "refused"),
    (r#"accept month "0012""#, "12"),
    (
        r#"accept month "0000000000000000000000000000000000000000000000000000000000000012""#,
        "12",
    ),
    (
        r#"accept month "00000000000000000000000000000000000000000000000000000000000000012""#,
        "12",
    ),
    (
        r#"accept month "0000000000000000000000000000000000000000000000000000000000000000013""#,
        "refused",
    ),
    ("text 1 month", "January"),
    ("text 12 month", "December"),
    ("text 0 month", "0"),
    ("text 13 month", "13"),
    ("text (list 1) month", "(1)"),
    (r#"accept (sequence month) "May,June""#, "(5 6)"),
    (r#"accept (sequence month) "May, 6 ,\"July\"""#, "(5 6 7)"),
    (r#"accept (sequence month) "May,13""#, "refused"),
    (r#"accept (sequence month) "May,""#, "refused"),
    (r#"accept (sequence month) """#, "()"),
    (r#"accept (sequence weekday) "Monday,Funday""#, "refused"),
    ("text (list 1 2 13) (sequence month)", "January,February,13"),
    (
        r#"text (list 5 6) ((sequence weekday) :separator "/")"#,
        "Saturday/Sunday",
    ),
];

/// Types that inherit from them.
const DERIVED: [(&str, &str); 15] = [
    (r#"accept day "Tuesday""#, "1"),
    (r#"accept day "06""#, "6"),
    (r#"accept day "07""#, "refused"),
    (r#"accept day "tuesday""#, "refused"),
    (r#"accept work-day "Friday""#, "4"),
    (r#"accept work-day "Saturday""#, "refused"),
    (r#"accept work-day "4""#, "4"),
    (r#"accept work-day "5""#, "refused"),
    ("text 2 day", "Wednesday"),
    ("text 9 day", "9"),
    ("text 2 work-day", "Wednesday"),
    ("text 6 work-day", "Sunday"),
    ("text (list 0 1) (sequence day)", "Monday,Tuesday"),
    (r#"accept (and day (member 1 2)) "Tuesday""#, "1"),
    (r#"accept (and day (member 1 2)) "Monday""#, "refused"),
];

#[test]
fn weekdays(rt: HostRuntime) -> Result<(), Fail> {
    ask_all(&rt, DECLARED, &WEEKDAYS)
}

#[test]
fn months(rt: HostRuntime) -> Result<(), Fail> {
    ask_all(&rt, DECLARED, &MONTHS)
}

#[test]
fn types_of_host_types(rt: HostRuntime) -> Result<(), Fail> {
    ask_all(&rt, DECLARED, &DERIVED)
}
