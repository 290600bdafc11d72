// Contact and Record-Route: the remote target, and the route set as received and reversed.
use sheet_lines::{ask_block, end_line, show_answer, show_bracketed, show_lookup};
use std::io;

// No example has more.
const MOST_ROUTES: usize = 10;

pub fn routes(rt: &impl Print) -> io::Result<()> {
    received(
        rt,
        b"01 sheet",
        b"Record-Route: \"a<b\" <sip:p@h>, <sip:q@h>\r\n",
    )?;
    trapezoid(rt)?;
    strict_router(rt)?;
    rewritten(rt)?;
    fields(rt)
}

// The callee takes the routes of the request in order, the caller those of the response reversed (12.1.1, 12.1.2).
fn trapezoid(rt: &impl Print) -> io::Result<()> {
    let place: &[u8] = b"RFC 3261 16.12.1.1";
    contact(rt, place, b"Contact: sip:caller@u1.example.com\r\n")?;
    received(rt, place, b"Contact: sip:caller@u1.example.com\r\n")?;
    received(
        rt,
        place,
        b"Contact: sip:caller@u1.example.com\r\nRecord-Route: <sip:p1.example.com;lr>\r\n",
    )?;
    received(
        rt,
        place,
        b"Contact: sip:caller@u1.example.com\r\nRecord-Route: <sip:p2.domain.com;lr>\r\nRecord-Route: <sip:p1.example.com;lr>\r\n",
    )?;
    contact(
        rt,
        place,
        b"Contact: sip:callee@u2.domain.com\r\nRecord-Route: <sip:p2.domain.com;lr>\r\nRecord-Route: <sip:p1.example.com;lr>\r\n",
    )?;
    reversed(
        rt,
        place,
        b"Contact: sip:callee@u2.domain.com\r\nRecord-Route: <sip:p2.domain.com;lr>\r\nRecord-Route: <sip:p1.example.com;lr>\r\n",
    )
}

fn strict_router(rt: &impl Print) -> io::Result<()> {
    received(
        rt,
        b"RFC 3261 16.12.1.2",
        b"Contact: sip:caller@u1.example.com\r\nRecord-Route: <sip:p4.domain.com;lr>\r\nRecord-Route: <sip:p3.middle.com>\r\nRecord-Route: <sip:p2.example.com;lr>\r\nRecord-Route: <sip:p1.example.com;lr>\r\n",
    )?;
    reversed(
        rt,
        b"RFC 3261 after 16.12.1.2",
        b"Record-Route: <sip:p4.domain.com;lr>\r\nRecord-Route: <sip:p3.middle.com>\r\nRecord-Route: <sip:p2.example.com;lr>\r\nRecord-Route: <sip:p1.example.com;lr>\r\n",
    )
}

fn rewritten(rt: &impl Print) -> io::Result<()> {
    let place: &[u8] = b"RFC 3261 16.12.1.3";
    contact(
        rt,
        place,
        b"Contact: <sip:caller@u1.leftprivatespace.com>\r\nRecord-Route: <sip:gateway.rightprivatespace.com;lr>\r\n",
    )?;
    received(
        rt,
        place,
        b"Contact: <sip:caller@u1.leftprivatespace.com>\r\nRecord-Route: <sip:gateway.rightprivatespace.com;lr>\r\n",
    )?;
    contact(
        rt,
        place,
        b"Contact: <sip:callee@u2.rightprivatespace.com>\r\nRecord-Route: <sip:gateway.leftprivatespace.com;lr>\r\n",
    )?;
    reversed(
        rt,
        place,
        b"Contact: <sip:callee@u2.rightprivatespace.com>\r\nRecord-Route: <sip:gateway.leftprivatespace.com;lr>\r\n",
    )
}

fn fields(rt: &impl Print) -> io::Result<()> {
    let after_20_30: &[u8] = b"RFC 3261 after 20.30";
    let section_7_3_1: &[u8] = b"RFC 3261 7.3.1";
    let after_20_10: &[u8] = b"RFC 3261 after 20.10";
    received(
        rt,
        b"RFC 3261 20.30",
        b"Record-Route: <sip:server10.biloxi.com;lr>,\r\n              <sip:bigbox3.site3.atlanta.com;lr>\r\n",
    )?;
    received(
        rt,
        after_20_30,
        b"Record-Route: <sip:server10.biloxi.com;lr>, <sip:bigbox3.site3.atlanta.com;lr>\r\n",
    )?;
    reversed(
        rt,
        after_20_30,
        b"Record-Route: <sip:server10.biloxi.com;lr>, <sip:bigbox3.site3.atlanta.com;lr>\r\n",
    )?;
    contact(
        rt,
        section_7_3_1,
        b"Contact: <sip:alice@atlanta.com>;expires=3600\r\n",
    )?;
    contact(
        rt,
        section_7_3_1,
        b"CONTACT: <sip:alice@atlanta.com>;ExPiReS=3600\r\n",
    )?;
    contact(
        rt,
        after_20_10,
        b"Contact: \"Mr. Watson\" <sip:watson@worcester.bell-telephone.com> ;q=0.7; expires=3600, \"Mr. Watson\" <mailto:watson@bell-telephone.com> ;q=0.1\r\n",
    )?;
    contact(
        rt,
        b"RFC 3261 20.10",
        b"m: <sips:bob@192.0.2.4>;expires=60\r\n",
    )?;
    contact(
        rt,
        after_20_10,
        b"Contact: <sips:bob@192.0.2.4>;expires=60\r\n",
    )?;
    contact(rt, after_20_10, b"Contact: *\r\n")
}

// Kept (2): `received` and `reversed` ask, show and end a line too, as each line of a sheet; what they ask and how they show it is other.
fn contact(rt: &impl Print, place: &[u8], block: &[u8]) -> io::Result<()> {
    ask_block(rt, place, b"Contact", block)?;
    show_lookup(rt, block, route_set::read_contact(block))?;
    end_line(rt)
}

fn received(rt: &impl Print, place: &[u8], block: &[u8]) -> io::Result<()> {
    ask_block(rt, place, b"routes", block)?;
    show_routes(rt, block, false)?;
    end_line(rt)
}

// Kept (2): `received` differs in a word and a flag, which each of its calls would give.
fn reversed(rt: &impl Print, place: &[u8], block: &[u8]) -> io::Result<()> {
    ask_block(rt, place, b"routes, reversed,", block)?;
    show_routes(rt, block, true)?;
    end_line(rt)
}

// How many routes there are, and each in brackets.
fn show_routes(rt: &impl Print, block: &[u8], reversed: bool) -> io::Result<()> {
    show_answer(rt, route_set::route_count(block))?;
    for i in 0..MOST_ROUTES {
        let Ok(Some(part)) = route_set::route(block, reversed, i) else {
            break;
        };
        rt.write_all(b" ")?;
        show_bracketed(rt, block, part)?;
    }
    Ok(())
}
