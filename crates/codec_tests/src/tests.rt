// Small files, written field by field. The expected answers are worked out by hand from the byte form.
use codec::holder::ByteDossier;
use dossier::questions::Dossier;
use dossier::record::{Head, Row};
use dossier::refusal::{Part, Refusal};
use field::kind::write_field;
use layers::cache::RowCache;
use layers::pair::Pair;
use writer::refusal::WriteRefusal;
use writer::write::write;

// A file of two rows: 23 + 2 * 24 bytes.
const SIZE: usize = 71;

fn two_rows(bound: u32, first: Row, second: Row) -> [u8; SIZE] {
    let head = Head {
        rows: 2,
        bound,
        ..Head::default()
    };
    let mut bytes = [0u8; SIZE];
    write_field(&head, &mut bytes[0..23]);
    write_field(&first, &mut bytes[23..47]);
    write_field(&second, &mut bytes[47..71]);
    bytes
}

// A row asked for twice through a cache.
fn cached(bytes: &[u8], place: u32) -> (Result<Row, Refusal>, Result<Row, Refusal>) {
    let mut cache = RowCache::new(ByteDossier::new(bytes));
    (cache.row(place), cache.row(place))
}

fn paired_head(first: &[u8], second: &[u8]) -> Result<Head, Refusal> {
    let mut pair = Pair::new(ByteDossier::new(first), ByteDossier::new(second));
    pair.head()
}

fn paired_row(first: &[u8], second: &[u8], place: u32) -> Result<Row, Refusal> {
    let mut pair = Pair::new(ByteDossier::new(first), ByteDossier::new(second));
    pair.row(place)
}

fn written(bytes: &[u8], out: &mut [u8]) -> Result<usize, WriteRefusal> {
    let mut dossier = ByteDossier::new(bytes);
    write(&mut dossier, out)
}

#[test]
fn cache_answers_twice_the_same(rt: HostRuntime) {
    let bytes = two_rows(9, Row::Advice(7), Row::Plain);
    let past = Err(Refusal::Past {
        part: Part::Row,
        place: 32,
    });
    let cases = [(0, Ok(Row::Advice(7))), (1, Ok(Row::Plain)), (32, past)];
    for (place, expected) in cases {
        let (first, second) = cached(&bytes, place);
        assert_eq!(rt; first, expected);
        assert_eq!(rt; second, expected);
    }
}

#[test]
fn pair_agrees_or_names_the_layer(rt: HostRuntime) {
    let whole = two_rows(9, Row::Advice(7), Row::Plain);
    let other = two_rows(9, Row::Advice(8), Row::Plain);
    let mut torn = whole;
    torn[23] = 0;
    assert_eq!(rt; paired_row(&whole, &whole, 0), Ok(Row::Advice(7)));
    assert_eq!(rt;
        paired_row(&whole, &other, 0),
        Err(Refusal::unreadable(Part::Row, 0, 4))
    );
    assert_eq!(rt; paired_row(&whole, &other, 1), Ok(Row::Plain));
    assert_eq!(rt;
        paired_row(&whole, &torn, 0),
        Err(Refusal::unreadable(Part::Row, 0, 1))
    );
    assert_eq!(rt;
        paired_row(&torn, &other, 0),
        Err(Refusal::unreadable(Part::Row, 0, 1))
    );
}

#[test]
fn pair_without_a_common_head_has_no_items(rt: HostRuntime) {
    let whole = two_rows(9, Row::Advice(7), Row::Plain);
    let other = two_rows(8, Row::Advice(7), Row::Plain);
    let past = Err(Refusal::Past {
        part: Part::Row,
        place: 0,
    });
    assert_eq!(rt;
        paired_head(&whole, &other),
        Err(Refusal::unreadable(Part::Head, 0, 4))
    );
    assert_eq!(rt; paired_row(&whole, &other, 0), past);
    assert_eq!(rt;
        paired_head(&whole, &[]),
        Err(Refusal::unreadable(Part::Head, 0, 1))
    );
    assert_eq!(rt; paired_row(&[], &whole, 0), past);
}

#[test]
fn writer_leaves_the_rest(rt: HostRuntime) {
    let bytes = two_rows(9, Row::Advice(7), Row::AdviceEnd);
    let mut out = [170u8; 80];
    assert_eq!(rt; written(&bytes, &mut out), Ok(71));
    assert!(rt; out[0..71] == bytes[0..71]);
    assert!(rt; out[71..80] == [170u8; 9]);
}

#[test]
fn writer_refuses_in_order(rt: HostRuntime) {
    let whole = two_rows(9, Row::Advice(7), Row::Plain);
    let mut torn = whole;
    torn[70] = 1;
    let mut out = [170u8; 70];
    let short = Err(WriteRefusal::Room { needed: 71 });
    assert_eq!(rt; written(&whole, &mut out), short);
    assert_eq!(rt; written(&torn, &mut out), short);
    assert_eq!(rt;
        written(&[], &mut out),
        Err(WriteRefusal::Asked(Refusal::unreadable(Part::Head, 0, 1)))
    );
    let mut room = [170u8; 71];
    assert_eq!(rt;
        written(&torn, &mut room),
        Err(WriteRefusal::Asked(Refusal::unreadable(Part::Row, 1, 1)))
    );
    assert!(rt; out == [170u8; 70] && room == [170u8; 71]);
}
