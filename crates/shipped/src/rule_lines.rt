// The shipped rules as lines written as in the paper: a line to a row, in 01's order.

pub const LINES: [u8; 1072] = *b"group\n\
    none sses -> ss\n\
    none ies -> i\n\
    none ss -> ss\n\
    none s -> -\n\
    group\n\
    m>0 eed -> ee\n\
    *v* ed -> - opens\n\
    *v* ing -> - opens\n\
    group opened\n\
    none at -> ate\n\
    none bl -> ble\n\
    none iz -> ize\n\
    *d and not (*L or *S or *Z) - -> single letter\n\
    m=1 and *o - -> e\n\
    group\n\
    *v* y -> i\n\
    group\n\
    m>0 ational -> ate\n\
    m>0 tional -> tion\n\
    m>0 enci -> ence\n\
    m>0 anci -> ance\n\
    m>0 izer -> ize\n\
    m>0 abli -> able\n\
    m>0 alli -> al\n\
    m>0 entli -> ent\n\
    m>0 eli -> e\n\
    m>0 ousli -> ous\n\
    m>0 ization -> ize\n\
    m>0 ation -> ate\n\
    m>0 ator -> ate\n\
    m>0 alism -> al\n\
    m>0 iveness -> ive\n\
    m>0 fulness -> ful\n\
    m>0 ousness -> ous\n\
    m>0 aliti -> al\n\
    m>0 iviti -> ive\n\
    m>0 biliti -> ble\n\
    group\n\
    m>0 icate -> ic\n\
    m>0 ative -> -\n\
    m>0 alize -> al\n\
    m>0 iciti -> ic\n\
    m>0 ical -> ic\n\
    m>0 ful -> -\n\
    m>0 ness -> -\n\
    group\n\
    m>1 al -> -\n\
    m>1 ance -> -\n\
    m>1 ence -> -\n\
    m>1 er -> -\n\
    m>1 ic -> -\n\
    m>1 able -> -\n\
    m>1 ible -> -\n\
    m>1 ant -> -\n\
    m>1 ement -> -\n\
    m>1 ment -> -\n\
    m>1 ent -> -\n\
    m>1 and (*S or *T) ion -> -\n\
    m>1 ou -> -\n\
    m>1 ism -> -\n\
    m>1 ate -> -\n\
    m>1 iti -> -\n\
    m>1 ous -> -\n\
    m>1 ive -> -\n\
    m>1 ize -> -\n\
    group\n\
    m>1 e -> -\n\
    m=1 and not *o e -> -\n\
    group\n\
    m>1 and *d and *L - -> single letter\n";
