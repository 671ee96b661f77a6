//! The rows and scripts of a whole input.
use auction_rows::Request;
use auction_text::read_scripts;
use test_values::{VIEW, VIEW_OF_BIDS, bid};

// The requests of the two stand among one another.
#[test]
fn each_worker_has_its_requests_in_their_order(rt: HostRuntime) {
    let text: &[u8] = b"\
0,+item,0,0,Vase,10,100,1
1,viewuser,4
0,bid,3,0.0,20,5
1,viewbids,0.0
0,viewitem,0.0
1,viewcategory,2
";
    let input = read_scripts(rt.alloc(), text, 2).expect(&rt, "an input");
    let [first, second] = input.scripts.as_slice() else {
        panic!(rt; "not two scripts");
    };
    assert_eq!(rt; first.as_slice(), [bid(3, 20, 5), VIEW].as_slice());
    let of_second = [
        Request::ViewUser { user: 4 },
        VIEW_OF_BIDS,
        Request::ViewCategory { category: 2 },
    ];
    assert_eq!(rt; second.as_slice(), of_second.as_slice());
    assert_eq!(rt; input.rows.len(), 1);
}
