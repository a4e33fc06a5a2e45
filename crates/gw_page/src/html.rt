//! The page itself, and what a browser may do for it: written by tools/page/write from tools/page/page.html and the examples.

/// The page: one text with its style and script inside, and the models of examples/.
pub(crate) const PAGE: &[u8] = b"<!doctype html>
<html lang=\"en\">
<head>
<meta charset=\"utf-8\">
<meta name=\"viewport\" content=\"width=device-width, initial-scale=1\">
<title>planner</title>
<style>
:root { color-scheme: light dark; --paper: #fff; --ink: #1a1d21; --dim: #5a636e; --line: #c4cad1; --band: #f3f5f7; --mark: #ffe0dc; --bad: #a3210f; --good: #0b5cad; --on: #fff; }
@media (prefers-color-scheme: dark) {
  :root { --paper: #15181c; --ink: #e6e9ec; --dim: #a3adb8; --line: #434b55; --band: #1f242a; --mark: #5a211b; --bad: #ff9d8c; --good: #7db8f5; --on: #10151a; }
}
* { box-sizing: border-box; }
html { -webkit-text-size-adjust: 100%; }
body { margin: 0; padding: 0 1rem 3rem; background: var(--paper); color: var(--ink); font: 16px/1.45 system-ui, sans-serif; }
header, main { max-width: 100rem; margin: 0 auto; }
h1 { font-size: 1.4rem; margin: .8rem 0 .1rem; }
h2 { font-size: 1.1rem; margin: 1.2rem 0 .4rem; }
h3 { font-size: 1rem; margin: 1.1rem 0 .3rem; overflow-wrap: anywhere; }
p { margin: .3rem 0; }
.dim { color: var(--dim); }
main { display: grid; gap: 1.2rem; grid-template-columns: minmax(0, 1fr); }
@media (min-width: 60rem) { main { grid-template-columns: minmax(0, 5fr) minmax(0, 6fr); } }
button, input, select, textarea { font: inherit; color: inherit; }
button { padding: .3rem .8rem; border: 1px solid var(--line); border-radius: .3rem; background: var(--band); cursor: pointer; }
button.do { background: var(--good); border-color: var(--good); color: var(--on); font-weight: 600; }
button.word { padding: 0; border: 0; background: none; color: var(--good); text-decoration: underline; font: inherit; }
button:disabled { opacity: .55; cursor: default; }
:focus-visible { outline: 3px solid var(--good); outline-offset: 2px; }
input, select { padding: .25rem .4rem; border: 1px solid var(--line); border-radius: .3rem; background: var(--paper); max-width: 100%; }
input.number { width: 6.5rem; }
input.words { width: 16rem; }
fieldset { border: 1px solid var(--line); border-radius: .4rem; margin: .6rem 0; padding: .3rem .7rem .6rem; min-width: 0; }
legend { font-weight: 600; padding: 0 .3rem; }
.row { display: flex; flex-wrap: wrap; gap: .4rem .8rem; align-items: end; }
.row > label { display: grid; gap: .1rem; font-size: .9rem; }
.row > label { min-width: 0; max-width: 100%; }
.row > label.whole { flex: 1 1 16rem; }
select { width: 100%; }
.row > label.tick { display: flex; gap: .4rem; align-items: center; padding: .35rem 0; }
.editor { position: relative; display: grid; grid-template-columns: auto minmax(0, 1fr); border: 1px solid var(--line); border-radius: .4rem; height: min(34rem, 65vh); overflow: hidden; background: var(--paper); }
.editor:focus-within { outline: 3px solid var(--good); outline-offset: 1px; }
#numbers, #text, #marks { font: 14px/20px ui-monospace, \"DejaVu Sans Mono\", Menlo, Consolas, monospace; padding: 8px; margin: 0; white-space: pre; tab-size: 8; }
#numbers { color: var(--dim); background: var(--band); text-align: right; overflow: hidden; user-select: none; border-right: 1px solid var(--line); min-width: 3.2rem; }
#numbers b { color: var(--bad); }
.sheet { position: relative; min-width: 0; }
#marks { position: absolute; inset: 0; overflow: hidden; color: transparent; pointer-events: none; }
#marks i { display: inline-block; min-width: 100%; background: var(--mark); font-style: normal; }
#text { position: absolute; inset: 0; width: 100%; height: 100%; border: 0; resize: none; background: transparent; overflow: auto; outline: none; }
#answer pre { background: var(--band); border: 1px solid var(--line); border-radius: .4rem; padding: .6rem; overflow: auto; font: 13px/1.4 ui-monospace, \"DejaVu Sans Mono\", Menlo, Consolas, monospace; max-height: 75vh; }
#answer pre.refusal { border-color: var(--bad); white-space: pre-wrap; overflow-wrap: anywhere; }
#answer img { width: 100%; height: auto; background: #fff; border: 1px solid var(--line); border-radius: .4rem; }
.wide { overflow-x: auto; }
a { color: var(--good); }
table { border-collapse: collapse; font-size: .85rem; font-variant-numeric: tabular-nums; }
tbody th { font-weight: normal; }
.differs th, .differs td { font-weight: 600; }
th, td { padding: .15rem .45rem; border-bottom: 1px solid var(--line); text-align: left; white-space: nowrap; }
th.number, td.number { text-align: right; }
thead th { background: var(--band); }
th button { border: 0; background: none; padding: 0; font: inherit; font-weight: 600; }
th[aria-sort=\"ascending\"] button::after { content: \" \\2191\"; }
th[aria-sort=\"descending\"] button::after { content: \" \\2193\"; }
#status { min-height: 1.5em; }
#status.bad { color: var(--bad); font-weight: 600; }
details { margin: .5rem 0; }
summary { cursor: pointer; }
</style>
</head>
<body>
<header>
<h1>planner</h1>
<p class=\"dim\">Simulation of queueing models in GPSS. Write a model, or take an example; ask what is wrong with it; run it, look at it, and study what a change would bring. The text stays in this browser.</p>
</header>
<main>
<section aria-label=\"Model\">
<div class=\"row\">
<label class=\"whole\" for=\"example\">Example<select id=\"example\"><option value=\"\">choose one</option></select></label>
<button type=\"button\" id=\"back\" hidden>Back to the text before</button>
</div>
<h2><label for=\"text\">Model text</label></h2>
<div class=\"editor\">
<div id=\"numbers\" aria-hidden=\"true\"></div>
<div class=\"sheet\"><pre id=\"marks\" aria-hidden=\"true\"></pre><textarea id=\"text\" spellcheck=\"false\" autocapitalize=\"off\" autocomplete=\"off\" wrap=\"off\" aria-describedby=\"keys\"></textarea></div>
</div>
<p class=\"dim\" id=\"keys\">Ctrl and Enter explain the model. Tab leaves the text.</p>
<form id=\"explain\"><div class=\"row\">
<button class=\"do\">Explain</button>
<button type=\"button\" id=\"list\">Object code</button>
<button type=\"button\" id=\"convert\">Convert from GPSS World</button>
</div></form>
<form id=\"report\"><fieldset><legend>Run</legend><div class=\"row\">
<label>Count<input class=\"number\" name=\"count\" inputmode=\"numeric\" pattern=\"[0-9]*\" placeholder=\"the model's\"></label>
<label>Seed<input class=\"number\" name=\"seed\" inputmode=\"numeric\" pattern=\"[0-9]*\" placeholder=\"the model's\"></label>
<button class=\"do\">Run</button>
</div></fieldset></form>
<form id=\"chart\"><fieldset><legend>Picture and steps</legend><div class=\"row\">
<label>From clock<input class=\"number\" name=\"from\" inputmode=\"numeric\" pattern=\"[0-9]*\" placeholder=\"0\"></label>
<label>To clock<input class=\"number\" name=\"to\" inputmode=\"numeric\" pattern=\"[0-9]*\" placeholder=\"the end\"></label>
<button class=\"do\">Picture</button>
<button type=\"button\" id=\"trace\">Steps</button>
</div></fieldset></form>
<form id=\"study\"><fieldset><legend>Study</legend><div class=\"row\">
<label>Runs<input class=\"number\" name=\"runs\" inputmode=\"numeric\" pattern=\"[0-9]+\" value=\"50\" required></label>
<label>Count of each<input class=\"number\" name=\"count\" inputmode=\"numeric\" pattern=\"[0-9]*\" placeholder=\"the model's\"></label>
<label>Leave out the first<input class=\"number\" name=\"window\" inputmode=\"numeric\" pattern=\"[0-9]*\" placeholder=\"0\"></label>
<label>Other numbers<input class=\"words\" name=\"points\" placeholder=\"NURSES=2,3\" spellcheck=\"false\"></label>
<label class=\"tick\"><input type=\"checkbox\" name=\"all\">blocks too</label>
<button class=\"do\">Study</button>
</div></fieldset></form>
</section>
<section id=\"answer\" aria-label=\"Answer\">
<h2 id=\"title\" tabindex=\"-1\">Answer</h2>
<p id=\"status\" role=\"status\"></p>
<button type=\"button\" id=\"stop\" hidden>Stop</button>
<div id=\"shown\"></div>
</section>
</main>
<script>
\"use strict\";
const EXAMPLES = [{\"name\": \"assembly\", \"title\": \"An order is split into three parts, which are made side by side and put together again.\", \"text\": \"* An order is split into three parts, which are made side by side and put together again.\\n        GENERATE  ,,,1             ; one order, at once\\n        SPLIT     2                ; itself and two copies\\n        ASSEMBLE  3\\n        TERMINATE 1\\n        START     1\\n\"}, {\"name\": \"assemblyline\", \"title\": \"An assembly line for tables.\", \"text\": \"* An assembly line for tables. Which station sets the pace, and how long does an order take?\\n* An order is split: its top is sawn and sanded, while two lathes turn its four legs; the fitter\\n* puts together what belongs together. Times are in minutes. The report: TABLE TABLES has the\\n* times from order to packed (SUM/COUNT = 64.8 minutes), QUEUE LEGS .. AVG the legs that wait,\\n* FACILITY .. UTIL and STORAGE LATHES .. AVG how busy each station is.\\n* Check: by an order in 30 minutes the lathes have 4 x 12 / 30 = 1.600 busy, the saw 20/30 = 0.667,\\n* the sander 15/30 = 0.500, the fitter 25/30 = 0.833, who sets the pace. The report: 1.600, 0.667,\\n* 0.500 and 0.834.\\nLATHES  STORAGE   2\\nTABLES  TABLE     M1,60,10,8       ; minutes from order to packed: up to 60, 70, ..\\n        GENERATE  30,10            ; an order for a table, every 20 to 40 minutes\\n        SPLIT     4,LEG            ; and its four legs\\n        QUEUE     TOPS             ; the order itself goes on as the top\\n        SEIZE     SAW\\n        DEPART    TOPS\\n        ADVANCE   20,5\\n        RELEASE   SAW\\n        SEIZE     SANDER\\n        ADVANCE   15,5\\n        RELEASE   SANDER\\n        TRANSFER  ,JOIN\\nLEG     QUEUE     LEGS\\n        ENTER     LATHES\\n        DEPART    LEGS\\n        ADVANCE   12,4\\n        LEAVE     LATHES\\nJOIN    ASSEMBLE  5                ; the top and its own four legs\\n        SEIZE     FITTER\\n        ADVANCE   25,10\\n        RELEASE   FITTER\\n        TABULATE  TABLES\\n        TERMINATE 1\\n        START     20000\\n\"}, {\"name\": \"barber\", \"title\": \"A barber with one chair.\", \"text\": \"* A barber with one chair. How long does a customer wait, and how many sit on the bench?\\n* Customers come at random, one in 20 minutes on average; a haircut takes 16 minutes. Times\\n* are in seconds. The report: QUEUE BENCH .. AVG is how many wait, on average; TABLE WAITS has\\n* each wait: SUM through COUNT is the mean, CLASS 0 those who didn't wait; FACILITY BARBER ..\\n* UTIL is how busy he is.\\n* Check: this is the line M/D/1, with a load of 960/1200 = 0.8. Theory: on average\\n* 0.8^2 / (2 x 0.2) = 1.600 wait, 1920 s each, and 20 of a hundred don't wait. The report: 1.559\\n* wait, 1876 s each, 20.2 of a hundred don't wait; the load came out as 0.797, for which theory\\n* has 1.565.\\n        RMULT     748932582,1985072130\\nGAP     FUNCTION  RN2,D29          ; exponential in 29 steps, mean 1200: the time between two customers\\n.04,24/.08,74/.12,127/.16,181/.2,238/.24,298/.28,361/.32,428\\n.36,499/.4,574/.44,654/.48,740/.52,832/.56,932/.6,1041/.64,1162\\n.68,1295/.72,1446/.76,1618/.8,1819/.84,2060/.88,2363/.92,2771/.96,3399\\n.98,4231/.99,5063/.995,5894/.999,7075/1,9489\\nCUT     EQU       960              ; a haircut, in seconds\\nWAITS   TABLE     M1,0,600,13      ; waits: none, up to 10 minutes, 20, ..\\n        GENERATE  FN$GAP,,,1000000 ; a customer comes; the limit is never met\\n        QUEUE     BENCH\\n        SEIZE     BARBER\\n        DEPART    BENCH\\n        TABULATE  WAITS            ; so far he has only waited\\n        ADVANCE   CUT\\n        RELEASE   BARBER\\n        TERMINATE 1\\n        START     100000           ; a hundred thousand customers\\n\"}, {\"name\": \"callcentre\", \"title\": \"A call centre for two languages.\", \"text\": \"* A call centre for two languages. Is it worth while to have agents who speak both?\\n* Calls come at random, one in 75 seconds for each language, and take 240 seconds on average.\\n* Three agents speak English, three French, two both: these are asked only when the others are\\n* busy. The report: QUEUE ELINE and FLINE .. AVG are how many hold the line, on average;\\n* STORAGE .. AVG how many agents of a kind talk.\\n* Check: 6.4 agents are busy, whoever they are; the report has 2.379 + 2.383 + 1.603 = 6.365. Mean\\n* wait by Erlang's formula C: 179 s if four agents served each language apart (M/M/4), 69 s if\\n* all eight spoke both (M/M/8). Two who do are in between: 99 s for each language in the report\\n* (1.315 x 3772101 / 49898), so they bring some seven tenths of the gain.\\n        RMULT     748932582,1985072130,1631331038,67377721\\nEXPO    FUNCTION  RN2,D29          ; exponential in 29 steps, mean 1000\\n.04,20/.08,62/.12,105/.16,151/.2,199/.24,249/.28,301/.32,357\\n.36,416/.4,478/.44,545/.48,616/.52,693/.56,777/.6,868/.64,968\\n.68,1079/.72,1205/.76,1348/.8,1516/.84,1717/.88,1970/.92,2309/.96,2833\\n.98,3526/.99,4219/.995,4912/.999,5896/1,7908\\nGAP     FUNCTION  RN3,D29          ; the same with mean 75: between two calls in English\\n.04,2/.08,5/.12,8/.16,11/.2,15/.24,19/.28,23/.32,27\\n.36,31/.4,36/.44,41/.48,46/.52,52/.56,58/.6,65/.64,73\\n.68,81/.72,90/.76,101/.8,114/.84,129/.88,148/.92,173/.96,212\\n.98,264/.99,316/.995,368/.999,442/1,593\\nGAPF    FUNCTION  RN4,D29          ; and between two in French\\n.04,2/.08,5/.12,8/.16,11/.2,15/.24,19/.28,23/.32,27\\n.36,31/.4,36/.44,41/.48,46/.52,52/.56,58/.6,65/.64,73\\n.68,81/.72,90/.76,101/.8,114/.84,129/.88,148/.92,173/.96,212\\n.98,264/.99,316/.995,368/.999,442/1,593\\nENGLISH STORAGE   3                ; agents who speak English alone\\nFRENCH  STORAGE   3                ; French alone\\nBOTH    STORAGE   2                ; both\\nCANE    BVARIABLE (R$ENGLISH>0)|(R$BOTH>0)\\nCANF    BVARIABLE (R$FRENCH>0)|(R$BOTH>0)\\n        GENERATE  FN$GAP,,,1000000 ; a call in English\\n        QUEUE     ELINE\\n        TEST E    BV$CANE,1        ; wait until somebody can take it\\n        DEPART    ELINE\\n        GATE SNF  ENGLISH,ANY      ; who speaks one language is asked first\\n        ENTER     ENGLISH\\n        ASSIGN    DRAW,FN$EXPO\\n        ADVANCE   (P$DRAW#240\\\\1000)\\n        LEAVE     ENGLISH\\n        TERMINATE 1\\n        GENERATE  FN$GAPF,,,1000000 ; a call in French\\n        QUEUE     FLINE\\n        TEST E    BV$CANF,1\\n        DEPART    FLINE\\n        GATE SNF  FRENCH,ANY\\n        ENTER     FRENCH\\n        ASSIGN    DRAW,FN$EXPO\\n        ADVANCE   (P$DRAW#240\\\\1000)\\n        LEAVE     FRENCH\\n        TERMINATE 1\\nANY     ENTER     BOTH\\n        ASSIGN    DRAW,FN$EXPO\\n        ADVANCE   (P$DRAW#240\\\\1000)\\n        LEAVE     BOTH\\n        TERMINATE 1\\n        START     100000\\n\"}, {\"name\": \"chains\", \"title\": \"Two trucks wait in a yard, which is a user chain, until at 5 the gate opens for all\", \"text\": \"* Two trucks wait in a yard, which is a user chain, until at 5 the gate opens for all:\\n* who came last stands in front, and leaves first.\\n        GENERATE  ,,,2             ; two trucks, at once\\n        LINK      YARD,LIFO\\n        GENERATE  ,,5,1            ; the gatekeeper, at 5\\n        UNLINK    YARD,ROAD,ALL\\n        TERMINATE\\nROAD    TERMINATE 1\\n        START     2\\n\"}, {\"name\": \"clinic\", \"title\": \"A walk-in clinic.\", \"text\": \"* A walk-in clinic. Patients come every 4 to 8 minutes; one of two nurses takes\\n* their details, 6 to 12 minutes; then the doctor sees them, 3 to 7 minutes.\\n* How long is the line, how busy is the doctor, how long does a visit take?\\n* The report: QUEUE WAITING and CORRIDOR .. AVG are the lines, FACILITY DOCTOR .. UTIL how busy\\n* the doctor is, TABLE VISIT the minutes of each visit. Check: in the long run 9/6 = 1.5 nurses are\\n* busy, and the doctor for 5/6 = 0.833 of the time; this run of a hundred patients has 1.460 and\\n* 0.776: it begins with an empty clinic, and patients came one in 6.2 minutes.\\nNURSES  STORAGE   2\\nVISIT   TABLE     M1,10,5,6        ; visits of up to 10 minutes, 15, 20, ..\\n        GENERATE  6,2              ; a patient comes\\n        QUEUE     WAITING\\n        ENTER     NURSES\\n        DEPART    WAITING\\n        ADVANCE   9,3              ; details are taken\\n        LEAVE     NURSES\\n        QUEUE     CORRIDOR\\n        SEIZE     DOCTOR\\n        DEPART    CORRIDOR\\n        ADVANCE   5,2              ; the doctor sees the patient\\n        RELEASE   DOCTOR\\n        TABULATE  VISIT\\n        TERMINATE 1\\n        START     100              ; a hundred patients\\n\"}, {\"name\": \"emergency\", \"title\": \"An emergency ward with one doctor.\", \"text\": \"* An emergency ward with one doctor. How long do the urgent wait, and who pays for it?\\n* Patients come at random, one in 14 minutes: a tenth is red, three tenths yellow, the rest\\n* green. The doctor takes red before yellow and yellow before green, but leaves nobody. Times\\n* are in seconds. The report: each QUEUE's AVG is how many of its colour wait, on average, and\\n* AVG x CLOCK / ENTRIES how long; UTIL how busy the doctor is; TABLE NEXT whom he saw (CLASS 0\\n* green, 1 yellow, 2 red).\\n* Check: Cobham's formula for M/G/1 with priorities: mean waits of 387 s (red), 722 s (yellow)\\n* and 3209 s (green), lines of 0.046, 0.258 and 2.293, at a load of 0.807. The report: waits of\\n* 383, 698 and 3008 s, lines of 0.045, 0.248 and 2.148, at a load of 0.802.\\n        RMULT     748932582,1985072130\\nGAP     FUNCTION  RN2,D29          ; exponential in 29 steps, mean 840: the time between two patients\\n.04,17/.08,52/.12,89/.16,127/.2,167/.24,209/.28,253/.32,300\\n.36,349/.4,402/.44,458/.48,518/.52,582/.56,653/.6,729/.64,813\\n.68,907/.72,1012/.76,1132/.8,1273/.84,1442/.88,1654/.92,1940/.96,2379\\n.98,2962/.99,3544/.995,4126/.999,4953/1,6643\\nNEXT    TABLE     PR,0,1,3         ; whom the doctor sees: 0 green, 1 yellow, 2 red\\n        GENERATE  FN$GAP,,,1000000 ; a patient comes\\n        TRANSFER  .100,,RED\\n        TRANSFER  .333,,YELLOW\\nGREEN   QUEUE     GREENS           ; of priority 0\\n        SEIZE     DOCTOR\\n        DEPART    GREENS\\n        TABULATE  NEXT\\n        ADVANCE   480,240          ; 4 to 12 minutes\\n        TRANSFER  ,HOME\\nYELLOW  PRIORITY  1\\n        QUEUE     YELLOWS\\n        SEIZE     DOCTOR\\n        DEPART    YELLOWS\\n        TABULATE  NEXT\\n        ADVANCE   900,300          ; 10 to 20 minutes\\n        TRANSFER  ,HOME\\nRED     PRIORITY  2\\n        QUEUE     REDS\\n        SEIZE     DOCTOR\\n        DEPART    REDS\\n        TABULATE  NEXT\\n        ADVANCE   1200,600         ; 10 to 30 minutes\\nHOME    RELEASE   DOCTOR\\n        TERMINATE 1\\n        START     100000\\n\"}, {\"name\": \"exchange\", \"title\": \"A telephone exchange of a house, with two lines to the town.\", \"text\": \"* A telephone exchange of a house, with two lines to the town. How long does who calls the town wait\\n* for a line, and how many calls from the town hear the busy tone? Calls come at random: one in 240\\n* seconds from the house, one in 180 seconds from the town; each takes 120 seconds on average. Who\\n* calls the town takes the first line, or where it is busy the second, and waits for either where\\n* both are. A call from the town tries them in the same order, and is lost where both are busy.\\n* The report: QUEUE WAITING .. AVG x CLOCK / ENTRIES is the mean wait, SAVEVALUE LOST the calls\\n* that were lost, FACILITY .. UTIL how busy a line is.\\n* Check: where n calls are on the lines or wait, n falls by one at n/120 a second, but at most at\\n* 2/120; it rises by one at 1/240 + 1/180 where n is 0 or 1, and at 1/240 above that. So both lines\\n* are busy for 0.295 of the time; the report: 16764 of 57204 calls from the town, 0.293, were lost.\\n* And 0.098 calls wait on average, each for 23.6 seconds; the report: 0.096, and so 23.2 seconds.\\n        RMULT     748932582,1985072130,1631331038,67377721\\nTALK    FUNCTION  RN2,D29          ; exponential in 29 steps, mean 120: how long a call takes\\n.04,2/.08,7/.12,13/.16,18/.2,24/.24,30/.28,36/.32,43\\n.36,50/.4,57/.44,65/.48,74/.52,83/.56,93/.6,104/.64,116\\n.68,129/.72,145/.76,162/.8,182/.84,206/.88,236/.92,277/.96,340\\n.98,423/.99,506/.995,589/.999,708/1,949\\nOUT     FUNCTION  RN3,D29          ; the same with mean 240: between two calls from the house\\n.04,5/.08,15/.12,25/.16,36/.2,48/.24,60/.28,72/.32,86\\n.36,100/.4,115/.44,131/.48,148/.52,166/.56,186/.6,208/.64,232\\n.68,259/.72,289/.76,324/.8,364/.84,412/.88,473/.92,554/.96,680\\n.98,846/.99,1013/.995,1179/.999,1415/1,1898\\nIN      FUNCTION  RN4,D29          ; and 180: between two calls from the town\\n.04,4/.08,11/.12,19/.16,27/.2,36/.24,45/.28,54/.32,64\\n.36,75/.4,86/.44,98/.48,111/.52,125/.56,140/.6,156/.64,174\\n.68,194/.72,217/.76,243/.8,273/.84,309/.88,355/.92,416/.96,510\\n.98,635/.99,759/.995,884/.999,1061/1,1423\\n        GENERATE  FN$OUT,,,1000000 ; a call from the house\\n        QUEUE     WAITING\\n        TRANSFER  BOTH,OUT1,OUT2   ; takes one line or the other, or waits for either\\nOUT1    SEIZE     LINE1\\n        DEPART    WAITING\\n        ADVANCE   FN$TALK\\n        RELEASE   LINE1\\n        TERMINATE 1\\nOUT2    SEIZE     LINE2\\n        DEPART    WAITING\\n        ADVANCE   FN$TALK\\n        RELEASE   LINE2\\n        TERMINATE 1\\n        GENERATE  FN$IN,,,1000000  ; a call from the town\\n        TRANSFER  BOTH,,IN2        ; takes the first line where it is free\\n        SEIZE     LINE1\\n        ADVANCE   FN$TALK\\n        RELEASE   LINE1\\n        TERMINATE 1\\nIN2     TRANSFER  BOTH,,BUSY       ; else the second where that is\\n        SEIZE     LINE2\\n        ADVANCE   FN$TALK\\n        RELEASE   LINE2\\n        TERMINATE 1\\nBUSY    SAVEVALUE LOST+,1          ; else it hears the busy tone\\n        TERMINATE 1\\n        START     100000           ; calls\\n\"}, {\"name\": \"jobshop\", \"title\": \"A job shop\", \"text\": \"* A job shop: one lathe, two mills, one drill. How long is an order in the shop, and which\\n* machine holds it up? Orders come at random, one an hour: six in ten are turned, milled and\\n* drilled, the others milled, drilled and milled again. A visit to a machine is a subroutine.\\n* Times are in seconds. The report: QUEUE ATLATHE, ATMILLS and ATDRILL .. AVG are the lines,\\n* FACILITY .. UTIL and STORAGE MILLS .. AVG the loads; TABLE ORDER the times in the shop.\\n* Check: with exponential times the machines are lines of their own, M/M/1 and M/M/2 (Jackson;\\n* Baskett, Chandy, Muntz and Palacios): lines of 2.250, 1.345 and 3.200, and 9.75 hours in the\\n* shop. The report: 2.058, 1.244 and 3.048, and 9.35 hours. Orders came one in 3628 s; for that\\n* theory has the lathe 0.744 and the drill 0.794 busy, and lines of 2.16, 1.29 and 3.06.\\n        RMULT     748932582,1985072130,1631331038\\nEXPO    FUNCTION  RN2,D29          ; exponential in 29 steps, mean 1000\\n.04,20/.08,62/.12,105/.16,151/.2,199/.24,249/.28,301/.32,357\\n.36,416/.4,478/.44,545/.48,616/.52,693/.56,777/.6,868/.64,968\\n.68,1079/.72,1205/.76,1348/.8,1516/.84,1717/.88,1970/.92,2309/.96,2833\\n.98,3526/.99,4219/.995,4912/.999,5896/1,7908\\nGAP     FUNCTION  RN3,D29          ; the same with mean 3600: between two orders\\n.04,73/.08,223/.12,380/.16,543/.2,715/.24,895/.28,1084/.32,1285\\n.36,1496/.4,1722/.44,1962/.48,2219/.52,2496/.56,2797/.6,3124/.64,3485\\n.68,3886/.72,4337/.76,4853/.8,5456/.84,6181/.88,7090/.92,8314/.96,10197\\n.98,12693/.99,15188/.995,17683/.999,21225/1,28468\\nMILLS   STORAGE   2                ; two milling machines\\nORDER   TABLE     M1,14400,14400,8 ; hours from order to end: up to 4, 8, ..\\n        GENERATE  FN$GAP,,,1000000 ; a job comes\\n        TRANSFER  .400,,TYPEB\\n        TRANSFER  SBR,TURN,BACK    ; type A: turn, mill, drill\\n        TRANSFER  SBR,CUT,BACK\\n        TRANSFER  SBR,HOLE,BACK\\n        TRANSFER  ,OUT\\nTYPEB   TRANSFER  SBR,CUT,BACK     ; type B: mill, drill, mill\\n        TRANSFER  SBR,HOLE,BACK\\n        TRANSFER  SBR,CUT,BACK\\nOUT     TABULATE  ORDER\\n        TERMINATE 1\\nTURN    QUEUE     ATLATHE          ; the lathe: 75 minutes on average\\n        SEIZE     LATHE\\n        DEPART    ATLATHE\\n        ASSIGN    DRAW,FN$EXPO\\n        ADVANCE   1                ; so that time passes for sure\\n        ADVANCE   (P$DRAW#4500\\\\1000-1)\\n        RELEASE   LATHE\\n        TRANSFER  P,BACK,1\\nCUT     QUEUE     ATMILLS          ; the mills: 60 minutes\\n        ENTER     MILLS\\n        DEPART    ATMILLS\\n        ASSIGN    DRAW,FN$EXPO\\n        ADVANCE   1                ; so that time passes for sure\\n        ADVANCE   (P$DRAW#3600\\\\1000-1)\\n        LEAVE     MILLS\\n        TRANSFER  P,BACK,1\\nHOLE    QUEUE     ATDRILL          ; the drill: 48 minutes\\n        SEIZE     DRILL\\n        DEPART    ATDRILL\\n        ASSIGN    DRAW,FN$EXPO\\n        ADVANCE   1                ; so that time passes for sure\\n        ADVANCE   (P$DRAW#2880\\\\1000-1)\\n        RELEASE   DRILL\\n        TRANSFER  P,BACK,1\\n        START     100000\\n\"}, {\"name\": \"machines\", \"title\": \"A park of ten machines and two fitters.\", \"text\": \"* A park of ten machines and two fitters. How many machines run, and would a third fitter help?\\n* A machine runs for 100 hours on average, then it breaks down; a repair takes 20 hours and one\\n* fitter. Times are in minutes; the run is of 200 years. The report: QUEUE RUNNING .. AVG is how\\n* many run, QUEUE DOWN .. AVG how many are down, waiting or in repair, STORAGE FITTERS .. AVG how\\n* many fitters work, on average.\\n* Check: the machine repair model M/M/2 with ten sources: 7.596 run, 2.404 are down, 1.519 fitters\\n* work. The report: 7.595, 2.404 and 1.516.\\n        RMULT     748932582,1985072130\\nEXPO    FUNCTION  RN2,D29          ; exponential in 29 steps, mean 1000\\n.04,20/.08,62/.12,105/.16,151/.2,199/.24,249/.28,301/.32,357\\n.36,416/.4,478/.44,545/.48,616/.52,693/.56,777/.6,868/.64,968\\n.68,1079/.72,1205/.76,1348/.8,1516/.84,1717/.88,1970/.92,2309/.96,2833\\n.98,3526/.99,4219/.995,4912/.999,5896/1,7908\\nFITTERS STORAGE   2\\n        GENERATE  ,,,10            ; ten machines\\nRUN     QUEUE     RUNNING\\n        ASSIGN    DRAW,FN$EXPO\\n        ADVANCE   1                ; so that time passes for sure\\n        ADVANCE   (P$DRAW#6000\\\\1000-1) ; runs for 100 hours on average\\n        DEPART    RUNNING\\n        QUEUE     DOWN\\n        ENTER     FITTERS\\n        ASSIGN    DRAW,FN$EXPO\\n        ADVANCE   (P$DRAW#1200\\\\1000) ; a repair takes 20 hours on average\\n        LEAVE     FITTERS\\n        DEPART    DOWN\\n        TRANSFER  ,RUN\\n        GENERATE  525600           ; a year, in minutes\\n        TERMINATE 1\\n        START     200              ; two hundred years\\n\"}, {\"name\": \"packets\", \"title\": \"A node of a packet network with room for five packets.\", \"text\": \"* A node of a packet network with room for five packets. How many are refused, and how many are\\n* lost though each is tried three times? Packets come at random, one a millisecond, and take\\n* 800 microseconds on the line, on average. Who finds no room tries again after 10 to 90\\n* milliseconds. Times are in microseconds. The report: SAVEVALUE REFUSED counts refused tries,\\n* LOST packets refused three times; STORAGE ROOM .. ENTRIES those let in; TABLE DELAY the times\\n* from the first try to the end of sending: CLASS 7 has those that had to try again.\\n* Check: if all tries came at random, this were M/M/1/5 with a load of r = 0.8 (1 + p + p^2), where\\n* p = (1 - r) r^5 / (1 - r^6) is the chance that a try is refused: p = 0.135, and p^3 = 0.0025 of\\n* the packets are lost. The report: 15149 of 15149 + 99685 tries, 0.132, and 318 of 100000\\n* packets: who was refused once is a little more likely to be refused again.\\n        RMULT     748932582,1985072130,1631331038\\nEXPO    FUNCTION  RN2,D29          ; exponential in 29 steps, mean 800: the time on the line\\n.04,16/.08,50/.12,84/.16,121/.2,159/.24,199/.28,241/.32,285\\n.36,333/.4,383/.44,436/.48,493/.52,555/.56,621/.6,694/.64,774\\n.68,864/.72,964/.76,1078/.8,1212/.84,1373/.88,1576/.92,1847/.96,2266\\n.98,2821/.99,3375/.995,3930/.999,4717/1,6326\\nGAP     FUNCTION  RN3,D29          ; the same with mean 1000: between two packets\\n.04,20/.08,62/.12,105/.16,151/.2,199/.24,249/.28,301/.32,357\\n.36,416/.4,478/.44,545/.48,616/.52,693/.56,777/.6,868/.64,968\\n.68,1079/.72,1205/.76,1348/.8,1516/.84,1717/.88,1970/.92,2309/.96,2833\\n.98,3526/.99,4219/.995,4912/.999,5896/1,7908\\nROOM    STORAGE   5                ; packets in the node, that on the line included\\nDELAY   TABLE     M1,2000,2000,8   ; microseconds from first try to sent\\n        GENERATE  FN$GAP,,,1000000 ; a packet, every millisecond on average\\n        ASSIGN    TRIES,3\\nSEND    GATE SNF  ROOM,FULL\\n        ENTER     ROOM\\n        SEIZE     LINE\\n        ADVANCE   FN$EXPO          ; 800 microseconds on average\\n        RELEASE   LINE\\n        LEAVE     ROOM\\n        TABULATE  DELAY\\n        TERMINATE 1\\nFULL    SAVEVALUE REFUSED+,1\\n        LOOP      TRIES,LATER\\n        SAVEVALUE LOST+,1          ; the third try was refused too\\n        TERMINATE 1\\nLATER   ADVANCE   50000,40000      ; tries again after 10 to 90 milliseconds\\n        TRANSFER  ,SEND\\n        START     100000\\n\"}, {\"name\": \"port\", \"title\": \"A port with three berths and two tugs.\", \"text\": \"* A port with three berths and two tugs. Are three berths enough, and are two tugs?\\n* A freighter comes every 5 to 15 hours and needs one tug in and one out; a tanker comes every\\n* 20 to 40 hours and needs both. A ship waits in the roads for a berth and then for tugs. Times\\n* are in minutes. The report: QUEUE ROADS .. AVG is how many ships wait outside, STORAGE BERTHS\\n* and TUGS .. AVG how many are taken, TABLE STAY how long ships are in port, all on average.\\n* Check: tugs in use are (60 + 45)/600 + 2 x (90 + 60)/1800 = 0.342; the report has 0.340. By\\n* Little's law ships in the roads and at the berths (0.191 + 2.602 = 2.793, with what waits for\\n* tugs counted twice) are ships a minute times stay: 20000/9019354 x 1256.4 = 2.786.\\nBERTHS  STORAGE   3\\nTUGS    STORAGE   2\\nSTAY    TABLE     M1,1200,300,8    ; minutes in port: up to 20 hours, 25, ..\\n        GENERATE  600,300          ; a freighter, every 5 to 15 hours\\n        QUEUE     ROADS\\n        ENTER     BERTHS           ; a berth first, then a tug\\n        ENTER     TUGS\\n        DEPART    ROADS\\n        ADVANCE   60,15            ; in\\n        LEAVE     TUGS\\n        ADVANCE   900,240          ; 11 to 19 hours at the berth\\n        ENTER     TUGS\\n        ADVANCE   45,15            ; out\\n        LEAVE     TUGS\\n        LEAVE     BERTHS\\n        TABULATE  STAY\\n        TERMINATE 1\\n        GENERATE  1800,600         ; a tanker, every 20 to 40 hours\\n        QUEUE     ROADS\\n        ENTER     BERTHS\\n        ENTER     TUGS,2           ; it takes both tugs\\n        DEPART    ROADS\\n        ADVANCE   90,30\\n        LEAVE     TUGS,2\\n        ADVANCE   1500,300         ; 20 to 30 hours\\n        ENTER     TUGS,2\\n        ADVANCE   60,15\\n        LEAVE     TUGS,2\\n        LEAVE     BERTHS\\n        TABULATE  STAY\\n        TERMINATE 1\\n        START     20000            ; twenty thousand ships\\n\"}, {\"name\": \"priorities\", \"title\": \"An emergency ward with one doctor, 15 minutes a patient.\", \"text\": \"* An emergency ward with one doctor, 15 minutes a patient. Three patients walk in,\\n* at 1, 11 and 21; an ambulance comes at 12, and goes before who waits already.\\n        GENERATE  10,,1,3\\nDOOR    QUEUE     WAITING\\n        SEIZE     DOCTOR\\n        DEPART    WAITING\\n        ADVANCE   15\\n        RELEASE   DOCTOR\\n        TERMINATE 1\\n        GENERATE  ,,12,1,5         ; of priority 5; the others have 0\\n        TRANSFER  ,DOOR\\n        START     4\\n\"}, {\"name\": \"procedure\", \"title\": \"A batch of ten pieces, of which the first takes 1 minute, the second 2, and so on\", \"text\": \"* A batch of ten pieces, of which the first takes 1 minute, the second 2, and so on:\\n* a PROCEDURE adds up the minutes.\\n        PROCEDURE MINUTES(PIECES) BEGIN\\n          TEMPORARY SUM,PIECE;\\n          SUM = 0; PIECE = 1;\\n          WHILE (PIECE \\u003c= PIECES) DO BEGIN SUM = SUM + PIECE; PIECE = PIECE + 1; END;\\n          RETURN SUM;\\n        END;\\n        GENERATE  ,,,1             ; one batch, at once\\n        ASSIGN    SIZE,10\\n        PLUS      (MINUTES(P$SIZE)),WORK\\n        ADVANCE   P$WORK\\n        TERMINATE 1\\n        START     1\\n\"}, {\"name\": \"stock\", \"title\": \"A stock kept by the rule (s, S)\", \"text\": \"* A stock kept by the rule (s, S): once a month, if fewer than s = 20 are there, order up to\\n* S = 40. What does it cost a month? Customers come at random, ten a month, and ask for 1 to 4\\n* pieces; what isn't there is owed. An order costs 32 and 3 a piece, and comes after half a month\\n* to a month; a piece on hand costs 1 a month, one owed 5. Clock: thousandths of a month.\\n* The report: SAVEVALUE COST is the cost of a month in thousandths, ORDERS how many there were,\\n* HOLDING and OWING pieces x time on hand and owed.\\n* Check: A. M. Law and W. D. Kelton, Simulation Modeling and Analysis, have this stock as their\\n* example; a run of theirs of 120 months gave 126.61. Here it is 125.70. Orders are 9097/12000 =\\n* 0.758 a month; the Markov chain of the stock at the first of the month gives 0.759.\\n        RMULT     748932582,1985072130,1631331038\\nSMALL   EQU       20               ; s\\nBIG     EQU       40               ; S\\nSIZE    FUNCTION  RN2,D4           ; how many are asked for\\n.166667,1/.5,2/.833333,3/1,4\\nGAP     FUNCTION  RN3,D29          ; exponential in 29 steps, mean 100: between two customers\\n.04,2/.08,6/.12,11/.16,15/.2,20/.24,25/.28,30/.32,36\\n.36,42/.4,48/.44,54/.48,62/.52,69/.56,78/.6,87/.64,97\\n.68,108/.72,120/.76,135/.8,152/.84,172/.88,197/.92,231/.96,283\\n.98,353/.99,422/.995,491/.999,590/1,791\\n        INITIAL   X$LEVEL,60       ; on hand; below 0 what is owed\\n        PROCEDURE ORDER(LEVEL) BEGIN\\n          IF (LEVEL \\u003c SMALL) THEN RETURN BIG - LEVEL;\\n          RETURN 0;                /* enough is there */\\n        END;\\n        PROCEDURE HELD(LEVEL, TIME) BEGIN\\n          IF (LEVEL > 0) THEN RETURN LEVEL # TIME;\\n          RETURN 0;\\n        END;\\n        GENERATE  FN$GAP,,,1000000 ; a customer, every tenth of a month on average\\n        ASSIGN    MANY,FN$SIZE\\n        TRANSFER  SBR,BOOK,BACK\\n        SAVEVALUE LEVEL-,P$MANY\\n        TERMINATE\\n        GENERATE  1000,,0          ; the first of each month\\n        ASSIGN    MANY,0           ; whoever calls BOOK has MANY set\\n        TRANSFER  SBR,BOOK,BACK\\n        PLUS      (ORDER(X$LEVEL)),MANY\\n        TEST G    P$MANY,0,ENOUGH\\n        SAVEVALUE ORDERS+,1\\n        SAVEVALUE BOUGHT+,P$MANY\\n        ADVANCE   750,250          ; it comes after half a month to a whole one\\n        TRANSFER  SBR,BOOK,BACK\\n        SAVEVALUE LEVEL+,P$MANY\\nENOUGH  TERMINATE\\nBOOK    SAVEVALUE HOLDING+,(HELD(X$LEVEL,C1-X$SINCE))\\n        SAVEVALUE OWING+,(HELD(-X$LEVEL,C1-X$SINCE))\\n        SAVEVALUE SINCE,C1\\n        TRANSFER  P,BACK,1\\n        GENERATE  12000000,,,1,-1  ; after twelve thousand months\\n        ASSIGN    MANY,0\\n        TRANSFER  SBR,BOOK,BACK\\n        SAVEVALUE COST,((32000#X$ORDERS+3000#X$BOUGHT+X$HOLDING+5#X$OWING)\\\\12000)\\n        TERMINATE 1\\n        START     1\\n\"}, {\"name\": \"subroutine\", \"title\": \"A part is washed before it is painted and after\", \"text\": \"* A part is washed before it is painted and after: washing is a subroutine, which\\n* is written once. Parameter 1 keeps the block from which it was called.\\n        GENERATE  ,,,1             ; one part, at once\\n        TRANSFER  SBR,WASH,1\\n        TRANSFER  SBR,WASH,1\\n        TERMINATE 1\\nWASH    ADVANCE   5\\n        TRANSFER  P,1,1            ; on to the block after the call\\n        START     1\\n\"}, {\"name\": \"tvrepair\", \"title\": \"A television repair shop with one bench.\", \"text\": \"* A television repair shop with one bench. How long do people stand at the counter?\\n* Three kinds of work, with the times of the model TVREPAIR in the GPSS World Tutorial Manual: the\\n* shop's own rental sets, to be overhauled when nothing else is to do, customers' sets, and small\\n* repairs while the customer waits. There these interrupt the others; here nobody does, so an\\n* overhaul is done in pieces of an hour, and who is more urgent comes in between. Minutes.\\n* The report: QUEUE COUNTER .. AVG x CLOCK / ENTRIES is how long one stands at the counter:\\n* 0.407 x 6001551 / 66684 = 36.6 minutes; QUEUE RENTAL gives in the same way how long an\\n* overhaul takes: 21.8 hours for 10 hours of work.\\n* Check: the bench is busy for 600/2400 + 120/300 + 15/90 = 0.817 of the time; the report: 0.815.\\n        GENERATE  2400,480,,,1     ; a rental set, every 32 to 48 hours: first, once a piece is done\\n        ASSIGN    PIECES,10        ; an overhaul in ten pieces of an hour\\n        QUEUE     RENTAL\\nPIECE   SEIZE     BENCH\\n        ADVANCE   60,6\\n        RELEASE   BENCH            ; who waits with a higher priority comes in between\\n        LOOP      PIECES,PIECE\\n        DEPART    RENTAL\\n        TERMINATE\\n        GENERATE  300,60,,,2       ; a customer's set, every 4 to 6 hours\\n        QUEUE     CUSTOMER\\n        SEIZE     BENCH\\n        DEPART    CUSTOMER\\n        ADVANCE   120,30\\n        RELEASE   BENCH\\n        TERMINATE 1\\n        GENERATE  90,10,,,3        ; somebody who waits for it, every 80 to 100 minutes\\n        QUEUE     COUNTER\\n        SEIZE     BENCH\\n        DEPART    COUNTER\\n        ADVANCE   15,5\\n        RELEASE   BENCH\\n        TERMINATE\\n        START     20000            ; customers' sets\\n\"}, {\"name\": \"warehouse\", \"title\": \"A warehouse with three docks; trucks wait in a yard.\", \"text\": \"* A warehouse with three docks; trucks wait in a yard. What does it cost others if trucks with\\n* frozen goods go first? Trucks come at random, one in 1000 seconds; every fourth is frozen.\\n* Unloading takes 2400 seconds on average. Who finds a free dock takes it; else the truck joins\\n* a user chain, its yard or the shaded lane, and whoever leaves a dock calls the next one.\\n* The report: QUEUE FROZEN and PLAIN .. AVG are how many wait, AVG x CLOCK / ENTRIES how long;\\n* STORAGE DOCKS .. AVG is how many docks are busy.\\n* Check: the line M/M/3 with two priorities: 0.162 frozen and 2.427 plain ones wait, 647 s and\\n* 3236 s; 2.4 docks are busy. The report: 0.158 and 2.296, 640 s and 3079 s; 2.388 docks.\\n        RMULT     748932582,1985072130,1631331038\\nEXPO    FUNCTION  RN2,D29          ; exponential in 29 steps, mean 2400: the time at a dock\\n.04,49/.08,149/.12,253/.16,362/.2,477/.24,597/.28,723/.32,856\\n.36,998/.4,1148/.44,1308/.48,1479/.52,1664/.56,1864/.6,2083/.64,2323\\n.68,2591/.72,2891/.76,3235/.8,3637/.84,4120/.88,4727/.92,5542/.96,6798\\n.98,8462/.99,10125/.995,11789/.999,14150/1,18979\\nGAP     FUNCTION  RN3,D29          ; the same with mean 1000: between two trucks\\n.04,20/.08,62/.12,105/.16,151/.2,199/.24,249/.28,301/.32,357\\n.36,416/.4,478/.44,545/.48,616/.52,693/.56,777/.6,868/.64,968\\n.68,1079/.72,1205/.76,1348/.8,1516/.84,1717/.88,1970/.92,2309/.96,2833\\n.98,3526/.99,4219/.995,4912/.999,5896/1,7908\\nDOCKS   STORAGE   3\\n        GENERATE  FN$GAP,,,1000000 ; a truck comes\\n        TRANSFER  .250,,COLD       ; every fourth has frozen goods\\n        QUEUE     PLAIN\\n        GATE SNF  DOCKS,PARK\\nBRING   ENTER     DOCKS\\n        DEPART    PLAIN\\n        TRANSFER  ,UNLOAD\\nPARK    LINK      YARD,FIFO\\nCOLD    QUEUE     FROZEN\\n        GATE SNF  DOCKS,SHADE\\nHASTEN  ENTER     DOCKS\\n        DEPART    FROZEN\\nUNLOAD  ADVANCE   FN$EXPO          ; 40 minutes on average\\n        LEAVE     DOCKS\\n        TEST E    CH$LANE,0,FIRST  ; does a truck with frozen goods wait?\\n        UNLINK    YARD,BRING,1\\n        TERMINATE 1\\nFIRST   UNLINK    LANE,HASTEN,1\\n        TERMINATE 1\\nSHADE   LINK      LANE,FIFO\\n        START     100000\\n\"}];
const $ = (id) => document.getElementById(id);
const text = $(\"text\"), numbers = $(\"numbers\"), marks = $(\"marks\"), shown = $(\"shown\"), status = $(\"status\");
let marked = new Set(), asked = null, address = null;

// WHAT IS KEPT IN THIS BROWSER

const keep = (name, value) => { try { localStorage.setItem(\"planner.\" + name, value); } catch { /* full, or not allowed */ } };
const kept = (name) => { try { return localStorage.getItem(\"planner.\" + name); } catch { return null; } };
const fields = () => document.querySelectorAll(\"form input\");
const fieldName = (field) => field.form.id + \".\" + field.name;
function keepFields() {
  const all = {};
  for (const field of fields()) all[fieldName(field)] = field.type === \"checkbox\" ? field.checked : field.value;
  keep(\"fields\", JSON.stringify(all));
}
function restoreFields() {
  let all = {};
  try { all = JSON.parse(kept(\"fields\") || \"{}\"); } catch { /* as if none were kept */ }
  for (const field of fields()) {
    const value = all[fieldName(field)];
    if (value === undefined) continue;
    if (field.type === \"checkbox\") field.checked = value; else field.value = value;
  }
}

// THE EDITOR

function number() {
  const lines = text.value.split(\"\\n\");
  numbers.replaceChildren();
  marks.replaceChildren();
  lines.forEach((line, i) => {
    const is = marked.has(i + 1);
    const place = document.createElement(is ? \"b\" : \"span\");
    place.textContent = String(i + 1) + \"\\n\";
    numbers.append(place);
    const mark = document.createElement(is ? \"i\" : \"span\");
    mark.textContent = (line || \" \");
    marks.append(mark, \"\\n\");
  });
  follow();
}
function follow() {
  numbers.scrollTop = text.scrollTop;
  marks.scrollTop = text.scrollTop;
  marks.scrollLeft = text.scrollLeft;
}
function unmark() { if (marked.size) { marked = new Set(); number(); } }
function goTo(line) {
  const lines = text.value.split(\"\\n\");
  let from = 0;
  for (let i = 0; i < line - 1 && i < lines.length; i++) from += lines[i].length + 1;
  text.focus();
  text.setSelectionRange(from, from + (lines[line - 1] || \"\").length);
  text.scrollTop = Math.max(0, (line - 5) * 20);
  follow();
}
function replaceText(value) {
  if (text.value.trim() && text.value !== value && !EXAMPLES.some((one) => one.text === text.value)) {
    keep(\"before\", text.value);
    $(\"back\").hidden = false;
  }
  text.value = value;
  keep(\"text\", value);
  marked = new Set();
  number();
}

// WHAT IS SHOWN

function clear(title) {
  shown.replaceChildren();
  if (address) { URL.revokeObjectURL(address); address = null; }
  $(\"title\").textContent = title;
}
function say(words, isBad) {
  status.textContent = words;
  status.classList.toggle(\"bad\", Boolean(isBad));
}
function add(name, words, where = shown) {
  const one = document.createElement(name);
  if (words !== undefined) one.textContent = words;
  where.append(one);
  return one;
}
// A text whose line numbers lead into the editor.
function addTextWithLines(words) {
  const pre = add(\"pre\");
  for (const line of words.trimEnd().split(\"\\n\")) {
    const found = /^line (\\d+)( \\| .*)?$/.exec(line);
    if (found) {
      const leap = add(\"button\", \"line \" + found[1], pre);
      leap.type = \"button\";
      leap.className = \"word\";
      leap.addEventListener(\"click\", () => goTo(Number(found[1])));
      pre.append((found[2] || \"\") + \"\\n\");
    } else pre.append(line + \"\\n\");
  }
  return pre;
}
const isNumber = (cell) => /^-?\\d+(\\.\\d+)?$/.test(cell);
const asCsv = (rows) => rows.map((row) => row.map((cell) => /[\",\\n]/.test(cell) ? \"\\\"\" + cell.replaceAll(\"\\\"\", \"\\\"\\\"\") + \"\\\"\" : cell).join(\",\")).join(\"\\r\\n\") + \"\\r\\n\";
async function copy(words, button) {
  try { await navigator.clipboard.writeText(words); } catch {
    const area = add(\"textarea\", words, document.body);
    area.select();
    document.execCommand(\"copy\");
    area.remove();
  }
  button.textContent = \"Copied\";
  setTimeout(() => { button.textContent = \"Copy as CSV\"; }, 2000);
}
function addTable(caption, head, rows, where = shown) {
  add(\"h3\", caption, where);
  const copying = add(\"button\", \"Copy as CSV\", where);
  copying.type = \"button\";
  copying.addEventListener(\"click\", () => copy(asCsv([head, ...rows]), copying));
  const wide = add(\"div\", undefined, where);
  wide.className = \"wide\";
  wide.tabIndex = 0;
  wide.setAttribute(\"role\", \"region\");
  wide.setAttribute(\"aria-label\", caption);
  const table = add(\"table\", undefined, wide);
  const top = add(\"tr\", undefined, add(\"thead\", undefined, table));
  const body = add(\"tbody\", undefined, table);
  const isNumeric = head.map((_, k) => rows.some((row) => isNumber(row[k])) && rows.every((row) => !row[k] || row[k] === \"-\" || isNumber(row[k])));
  const fill = (ordered) => {
    body.replaceChildren();
    for (const row of ordered) {
      const line = add(\"tr\", undefined, body);
      if (row.includes(\"differs\")) line.className = \"differs\";
      head.forEach((_, k) => {
        const cell = add(k ? \"td\" : \"th\", row[k] || \"\", line);
        if (!k) cell.scope = \"row\";
        if (isNumeric[k]) cell.className = \"number\";
      });
    }
  };
  head.forEach((name, k) => {
    const cell = add(\"th\", undefined, top);
    cell.scope = \"col\";
    if (isNumeric[k]) cell.className = \"number\";
    const sort = add(\"button\", name, cell);
    sort.type = \"button\";
    sort.addEventListener(\"click\", () => {
      const down = cell.getAttribute(\"aria-sort\") === \"ascending\";
      for (const other of top.children) other.removeAttribute(\"aria-sort\");
      cell.setAttribute(\"aria-sort\", down ? \"descending\" : \"ascending\");
      const value = (row) => isNumeric[k] ? (isNumber(row[k]) ? Number(row[k]) : -Infinity) : row[k] || \"\";
      const ordered = [...rows].sort((a, b) => {
        const one = value(a), other = value(b);
        const way = typeof one === \"number\" ? (one > other) - (one < other) : one.localeCompare(other, \"en\");
        return down ? -way : way;
      });
      fill(ordered);
    });
  });
  fill(rows);
}
function addAsItCame(words) {
  const one = add(\"details\");
  add(\"summary\", \"The text as it came\", one);
  add(\"pre\", words, one);
}

// A report: its lines by what they are of.
function showReport(words) {
  const tables = new Map();
  const into = (kind, head) => { if (!tables.has(kind)) tables.set(kind, { head, rows: [] }); return tables.get(kind).rows; };
  let classes = null;
  for (const line of words.split(\"\\n\")) {
    const [kind, name, ...rest] = line.split(\" \");
    if (kind === \"END\") {
      add(\"p\", \"It ended: \" + name + \".\");
      const pairs = rest.filter((_, k) => k % 2).map((value, k) => rest[2 * k] + \" \" + value);
      add(\"p\", pairs.join(\", \").toLowerCase() + \".\").className = \"dim\";
    } else if (kind === \"BLOCK\") into(\"Blocks\", [\"Block\", \"Word\", \"Entries\", \"Here\"]).push([name, ...rest]);
    else if (kind === \"CLASS\") { if (classes) classes.push([name, rest[0]]); }
    else if (kind === \"SAVEVALUE\") into(\"Savevalues\", [\"Name\", \"Value\"]).push([name, rest.join(\" \")]);
    else if (kind === \"SWITCH\") into(\"Switches\", [\"Name\", \"State\"]).push([name, rest.join(\" \")]);
    else if (kind && rest.length % 2 === 0 && name) {
      const heads = { FACILITY: \"Facilities\", STORAGE: \"Storages\", QUEUE: \"Queues\", TABLE: \"Tables\", CHAIN: \"User chains\" };
      into(heads[kind] || kind, [\"Name\", ...rest.filter((_, k) => k % 2 === 0)]).push([name, ...rest.filter((_, k) => k % 2)]);
      if (kind === \"TABLE\") classes = into(\"Classes of table \" + name, [\"Class\", \"Count\"]);
    }
  }
  const order = [...tables.keys()].sort((a, b) => (a === \"Blocks\") - (b === \"Blocks\"));
  for (const kind of order) addTable(kind, tables.get(kind).head, tables.get(kind).rows);
  addAsItCame(words);
}

// A study: lines of words, and tables whose columns stand two spaces or more apart. What differs stands first.
function showStudy(words) {
  let caption = \"Figures\", head = null, rows = [];
  const first = add(\"div\"), others = add(\"div\");
  const end = () => {
    if (head && rows.some((row) => row.length > head.length)) head.push(\"SEEN\");
    if (head) addTable(caption, head, rows, caption.startsWith(\"DIFFERENCE\") ? first : others);
    head = null;
    rows = [];
  };
  for (const line of words.split(\"\\n\")) {
    if (line.startsWith(\"FIGURE \")) {
      end();
      head = line.trim().split(/ {2,}/);
      rows = [];
    } else if (head && / {2,}/.test(line)) rows.push(line.trim().split(/ {2,}/));
    else if (line.trim()) {
      end();
      if (/^(DIFFERENCE|POINT) /.test(line)) caption = line; else add(\"p\", line, others);
    }
  }
  end();
  addAsItCame(words);
}

function showPicture(blob) {
  address = URL.createObjectURL(blob);
  const image = add(\"img\");
  image.alt = \"What was where over time, in the model's run. The figures are in the answer to Run.\";
  image.src = address;
  const save = add(\"a\", \"Save the picture (SVG)\", add(\"p\"));
  save.href = address;
  save.download = \"picture.svg\";
}

function showConverted(words) {
  const take = add(\"button\", \"Put it into the editor\");
  take.type = \"button\";
  take.addEventListener(\"click\", () => replaceText(words));
  add(\"pre\", words);
}

// A refusal: its lines are marked in the editor.
function showRefusal(words) {
  marked = new Set([...words.matchAll(/^line (\\d+)\\b/gm)].map((found) => Number(found[1])));
  const at = /^refused .* at line (\\d+)/m.exec(words);
  if (at) marked.add(Number(at[1]));
  number();
  addTextWithLines(words).className = \"refusal\";
  if (marked.size) {
    const first = Math.min(...marked);
    text.scrollTop = Math.max(0, (first - 5) * 20);
    follow();
  }
}

// WHAT IS ASKED

const said = {
  400: \"These words name no command of the planner:\",
  413: \"The model is larger than the one megabyte that a model may have.\",
  414: \"What was asked is too long.\",
  503: \"This is more than the page answers:\",
};
async function ask(command, words, title, show) {
  if (asked) asked.abort();
  const own = asked = new AbortController();
  clear(title);
  say(\"Working ..\");
  $(\"stop\").hidden = false;
  try {
    const query = words.length ? \"?\" + words.join(\"&\") : \"\";
    const response = await fetch(command + query, { method: \"POST\", headers: { \"Content-Type\": \"text/plain; charset=utf-8\" }, body: text.value, signal: own.signal });
    if (response.status === 200 && command === \"chart\") {
      const blob = await response.blob();
      unmark();
      say(\"Done.\");
      showPicture(blob);
      return;
    }
    const told = await response.text();
    if (asked !== own) return;
    if (response.status === 200) { unmark(); say(\"Done.\"); show(told); }
    else if (response.status === 422) { say(\"The model, or what is asked of it, is refused. What is wrong and how to mend it:\", true); showRefusal(told); }
    else { say(said[response.status] || \"The service answered \" + response.status + \".\", true); if (said[response.status] !== told) addTextWithLines(told); }
  } catch (error) {
    if (error.name === \"AbortError\") { if (asked === own) say(\"Stopped.\"); }
    else say(\"No answer came. The text is kept; try again.\", true);
  } finally {
    if (asked === own) { asked = null; $(\"stop\").hidden = true; seeAnswer(); }
  }
}
// Where the answer begins below the window, or above it, it comes into sight.
function seeAnswer() {
  const place = $(\"title\").getBoundingClientRect();
  if (place.top < 0 || place.bottom > innerHeight) $(\"title\").scrollIntoView();
}
const field = (form, name) => $(form).elements[name].value.trim();
const encoded = (word) => word.split(\"=\").map(encodeURIComponent).join(\"=\").replaceAll(\"%2C\", \",\");
function asks(form, act) {
  $(form).addEventListener(\"submit\", (event) => { event.preventDefault(); act(); });
}
const explain = () => ask(\"explain\", [], \"Explanation\", addTextWithLines);
asks(\"explain\", explain);
$(\"list\").addEventListener(\"click\", () => ask(\"list\", [], \"Object code\", (told) => add(\"pre\", told)));
$(\"convert\").addEventListener(\"click\", () => ask(\"convert\", [], \"Converted\", showConverted));
asks(\"report\", () => {
  const seed = field(\"report\", \"seed\"), count = field(\"report\", \"count\");
  ask(\"report\", seed || count ? [seed || \"0\", count || \"0\"] : [], \"Report of the run\", showReport);
});
function span() {
  const from = field(\"chart\", \"from\"), to = field(\"chart\", \"to\");
  return from || to ? [from || \"0\", to || \"9223372036854775807\"] : [];
}
asks(\"chart\", () => ask(\"chart\", span(), \"Picture of the run\", () => {}));
$(\"trace\").addEventListener(\"click\", () => {
  const words = span();
  ask(\"trace\", words.length ? words : [\"0\", \"100\"], words.length ? \"Steps of the run\" : \"Steps of the run up to clock 100\", (told) => add(\"pre\", told));
});
asks(\"study\", () => {
  const words = [field(\"study\", \"runs\"), field(\"study\", \"count\") || \"0\"];
  const points = field(\"study\", \"points\").split(/\\s+/).filter(Boolean).map(encoded);
  const window = field(\"study\", \"window\");
  words.push(...points);
  if (window) words.push(\"--from=\" + window);
  if ($(\"study\").elements.all.checked) words.push(\"--all\");
  ask(\"study\", words, \"Study\", showStudy);
});
$(\"stop\").addEventListener(\"click\", () => { if (asked) asked.abort(); });

// THE START

EXAMPLES.forEach((one, i) => {
  const option = add(\"option\", one.name + \": \" + one.title, $(\"example\"));
  option.value = String(i);
});
$(\"example\").addEventListener(\"change\", (event) => {
  const one = EXAMPLES[event.target.value];
  if (one) { replaceText(one.text); clear(\"Answer\"); say(\"Example \" + one.name + \".\"); }
});
$(\"back\").addEventListener(\"click\", () => {
  const before = kept(\"before\");
  if (before !== null) { const now = text.value; text.value = before; keep(\"text\", before); keep(\"before\", now); unmark(); number(); }
});
text.addEventListener(\"input\", () => { keep(\"text\", text.value); marked = new Set(); number(); });
text.addEventListener(\"scroll\", follow);
text.addEventListener(\"keydown\", (event) => { if (event.key === \"Enter\" && (event.ctrlKey || event.metaKey)) { event.preventDefault(); explain(); } });
document.addEventListener(\"input\", (event) => { if (event.target.form) keepFields(); });
const first = EXAMPLES.find((one) => one.name === \"clinic\");
text.value = kept(\"text\") ?? (first ? first.text : \"\");
if (kept(\"before\") !== null) $(\"back\").hidden = false;
restoreFields();
number();
</script>
</body>
</html>
";

/// What a browser may load and run for the page: its own style and script, pictures that it was sent, and requests to where it
/// came from (W3C, Content Security Policy Level 3).
pub(crate) const PAGE_POLICY: &str =
    "default-src 'none'; script-src 'sha256-2la2GiRq9M/XMKaJOtewpcx1IlHSYmf3f4RPFkyhcxI='; style-src 'sha256-yIqck/n2oMyCU6f21yhHoGXCp4Rjhxnb5f6EPmBTJ1A='; img-src blob:; connect-src 'self'; base-uri 'none'; form-action 'none'; frame-ancestors 'none'";
