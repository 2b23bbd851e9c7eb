// Laws over all calls of a card. There is no code here: specs/ names the calls, what each leaves and what each may touch, and proofs/ has what holds of all.
//
// What is proved: whatever the call and the card handed in, a lawful card stays lawful, a refused call changes nothing but in the cases that the page names, and
// no call touches what it is not said to touch; waits continue one another; a block leaves the card that its bytes leave one by one; a large offset is held
// only with the jam off; a closed event latch keeps the first trip and counts the edges behind it; a frame that reads is the
// one that is written for some card; every year ends after the days that the leap rule gives it; the page's examples hold.
#![tactic(auto)]
