use adc_base32::Sid;
use hub_client::{ClientFault, ClientIdentity, HubRequest, NickText, act_line, login_line};
use session_hash::TableTiger;
use std::alloc::{AllocGlobal, Global};
use std::process::Abort;
use tests_support::again;

fn sends(rt: &(impl Abort + AllocGlobal), request: &HubRequest<'_>, wanted: &str) {
    let line = again!(rt; act_line(rt.alloc(), request));
    assert_eq!(rt; line.text(), wanted);
}

#[test]
fn requests_are_messages(rt: HostRuntime) {
    let alloc = rt.alloc();
    let kick = again!(&rt; HubRequest::kick(alloc, "bob", ""));
    sends(&rt, &kick, "HMSG !kick\\sbob");
    let kick = again!(&rt; HubRequest::kick(alloc, "bób", "be kind \\ leave\nnow"));
    sends(&rt, &kick, r"HMSG !kick\sbób\sbe\skind\s\\\sleave\nnow");
    let ban = again!(&rt; HubRequest::ban(alloc, "bob", 0, ""));
    sends(&rt, &ban, "HMSG !ban\\sbob\\s0");
    let ban = again!(&rt; HubRequest::ban(alloc, "bob", 4_294_967_295, "spam"));
    sends(&rt, &ban, "HMSG !ban\\sbob\\s4294967295\\sspam");
    sends(&rt, &HubRequest::topic(""), "HMSG !topic");
    let topic = HubRequest::topic("Films of the week");
    sends(&rt, &topic, r"HMSG !topic\sFilms\sof\sthe\sweek");
    let Some(unban) = HubRequest::unban("ONSWG4TFOQAAAAAAAAAAAAAAAAAAAAAAAAAAAAA") else {
        panic!(rt; "no client identifier");
    };
    let wanted = r"HMSG !unban\sONSWG4TFOQAAAAAAAAAAAAAAAAAAAAAAAAAAAAA";
    sends(&rt, &unban, wanted);
    assert!(rt; HubRequest::unban("ONSWG4TFOQ").is_none());
    again!(&rt; match HubRequest::kick(alloc, "a b", "") {
        Ok(_) => panic!(rt; "no nick"),
        Err(adc_ids::NickFault::Invalid) => Ok(()),
        Err(fault) => Err(fault),
    });
}

/// Gives the login of a client whose private identifier is 24 bytes 7, by Tiger with tables of zeros.
fn login(alloc: Global) -> Result<String, ClientFault> {
    let (Ok(hash), Ok(nick), Some(sid)) = (
        TableTiger::from_bytes(alloc, &[0; 8192]),
        NickText::parse(alloc, "op"),
        Sid::from_u32(1),
    ) else {
        return Err(ClientFault::Memory);
    };
    let line = login_line(alloc, sid, &ClientIdentity::of(&hash, [7; 24]), &nick)?;
    Ok(String::from_str(alloc, line.text())?)
}

#[test]
fn a_login_has_both_identifiers(rt: HostRuntime) {
    // `tiger` of bench/hostile.py, with tables of zeros, gives this client identifier.
    let line = again!(&rt; login(rt.alloc()));
    assert_eq!(rt;
        line.as_str(),
        "BINF AAAB IDBNFUWPDSHNVTBUBFFFITKR2HIRITEF27ZFFVOHQ PDA4DQOBYHA4DQOBYHA4DQOBYHA4DQOBYHA4DQOBY NIop SS0 SF0 VEadc-hubctl\\s1.0"
    );
}
